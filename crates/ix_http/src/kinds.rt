//! What a request asks, and why one is refused.

ghost use Rattle.std.specs.Prelude.{◌≡◌, ◌≤◌, length};
ghost use Rattle.ix_http.specs.Names.{name_of};

use ix_base::{Bytes, ChannelMeta, NumberList, Range};
use std::fmt;
use thiserror::Error;

/// Why a request is refused. Where several causes stand together, the first one in this order is
/// answered.
#[derive(Clone, Copy, Debug, PartialEq, Eq, Error)]
pub enum HttpFault {
    /// No head of HTTP/1.0 or 1.1, more than 64 header lines, two `Content-Length` lines, or one
    /// that is not 1 to 10 digits.
    BadHead,
    /// The path names nothing.
    NoRoute,
    /// The path has another method.
    WrongMethod,
    /// No `Content-Length` where one is required, or a `Transfer-Encoding`.
    NoLength,
    /// A `Content-Encoding` other than `identity`.
    Encoded,
    /// The body is longer than the path allows.
    TooLong,
    /// The query has a name other than `earliest` and `latest`, one of them twice, or a value that
    /// is no time.
    BadQuery,
    /// The body is no JSON, or not of the form.
    BadBody,
}

impl HttpFault {
    /// Its name, as replies tell it.
    pub fn name(self) -> &'static str
        ensures name { result.now ≡ name_of self }
        ensures short { length result.now ≤ 20 }
    {
        match self {
            HttpFault::BadHead => "BadHead",
            HttpFault::NoRoute => "NoRoute",
            HttpFault::WrongMethod => "WrongMethod",
            HttpFault::NoLength => "NoLength",
            HttpFault::Encoded => "Encoded",
            HttpFault::TooLong => "TooLong",
            HttpFault::BadQuery => "BadQuery",
            HttpFault::BadBody => "BadBody",
        }
    }
}

/// Its name.
impl fmt::Display for HttpFault {
    ghost use Rattle.std.specs.Prelude.{Some};
    ghost use Rattle.ix_http.specs.Names.{name_of};

    ghost output = { λ fault. Some (name_of fault) };

    fn fmt<W: fmt::Write>(&self, f: &mut fmt::Formatter<W>) -> fmt::Result {
        f.write_str(self.name())
    }
}

/// What a request asks.
#[derive(Drop)]
pub enum Ask {
    /// Begin a channel.
    Begin {
        /// Its name.
        channel: Bytes,
        /// What it states of its events.
        meta: ChannelMeta,
    },
    /// Take a block of a channel's bytes.
    Block {
        /// The channel's name.
        channel: Bytes,
        /// The bytes.
        bytes: Bytes,
    },
    /// End a channel.
    End {
        /// Its name.
        channel: Bytes,
    },
    /// Which numbers are acknowledged.
    Acks {
        /// The run that gave the numbers.
        run: u64,
        /// The numbers, in the order asked.
        numbers: NumberList,
    },
    /// List the buckets.
    Buckets,
    /// List the events of an index.
    Events {
        /// The index' name.
        index: Bytes,
        /// Their times.
        range: Range,
    },
}

/// What a link sends.
#[derive(Drop)]
pub enum Incoming {
    /// Nothing more: the link has ended.
    Ended,
    /// A request.
    Asked {
        /// What it asks.
        ask: Ask,
    },
    /// A request that is refused.
    Refused {
        /// Why.
        fault: HttpFault,
        /// Whether it is known where the request ends. Then all of it was read, and another one may
        /// follow.
        delimited: bool,
    },
}

/// What the body of a reply is.
#[derive(Clone, Copy, Debug, PartialEq, Eq)]
pub enum Kind {
    /// JSON.
    Json,
    /// Plain text.
    Plain,
}
