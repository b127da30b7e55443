//! The router of the service.

ghost use Rattle.std.specs.Prelude.{◌≡◌, IfOk, OnOk, option_map};
ghost use Rattle.ix_http.specs.Table.{with_route, table, IsFree, IsFound};

use ix_base::NoMemory;
use matchit::{InsertError, Router};
use std::alloc::Global;
use std::marker::Model;

/// The forms of paths.
#[derive(Clone, Copy, Debug, PartialEq, Eq)]
pub(crate) enum Form {
    /// A channel, by its name.
    Channel,
    /// The blocks of a channel.
    Blocks,
    /// The end of a channel.
    End,
    /// What is acknowledged.
    Acks,
    /// The buckets.
    Buckets,
    /// The events of an index, by its name.
    Events,
}

/// The routes of the service. They are made once, and lent to each reading of a request.
#[derive(Drop)]
pub struct Routes {
    router: Router<Form>,
}

impl Model for Routes {
    ghost use Rattle.std.specs.Prelude.{◌≡◌, ⊤};
    ghost use Rattle.ix_http.specs.Table.{table};

    ghost Value = { ⊤ };

    ghost view = { λ r. tt };

    ghost invariant = { λ r. r.router ≡ table };
}

/// The router with one more route.
#[tactic(auto, unfolding(crate::specs::Table::with_route, crate::specs::Table::IsFree))]
fn with_route(mut router: Router<Form>, route: &str, form: Form) -> Result<Router<Form>, NoMemory>
    requires { IsFree router route.now }
    ensures { IfOk result (λ new. new ≡ with_route router route.now form) }
{
    match router.insert(route, form) {
        Ok(()) => Ok(router),
        Err(InsertError::OutOfMemory) => Err(NoMemory),
        Err(_) => unreachable!(),
    }
}

#[tactic(auto, unfolding(crate::specs::Table::table))]
fn full_router(alloc: Global) -> Result<Router<Form>, NoMemory>
    ensures { IfOk result (λ r. r ≡ table) }
{
    let router = Router::new(alloc);
    let router = with_route(router, "/channels/{name}", Form::Channel)?;
    let router = with_route(router, "/channels/{name}/blocks", Form::Blocks)?;
    let router = with_route(router, "/channels/{name}/end", Form::End)?;
    let router = with_route(router, "/acks", Form::Acks)?;
    let router = with_route(router, "/buckets", Form::Buckets)?;
    let router = with_route(router, "/indexes/{name}/events", Form::Events)?;
    Ok(router)
}

impl Routes {
    /// The routes of the service, or want of memory.
    pub fn new(alloc: Global) -> Result<Routes, NoMemory> {
        Ok(Routes {
            router: full_router(alloc)?,
        })
    }

    /// The form of a path, and its name, or no text where it has none.
    pub(crate) fn find<'b>(&self, path: &'b str) -> Option<(Form, &'b str)>
        ensures { IsFound path.now (option_map (λ f. (f.0, f.1.now)) result) }
    {
        match self.router.at(path) {
            Ok(found) => Some((*found.value, found.params.get("name").unwrap_or(""))),
            Err(_) => None,
        }
    }
}
