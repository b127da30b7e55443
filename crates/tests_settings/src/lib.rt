//! Tests of settings and of the rules that they give, each by its public calls.
#![tactic(auto)]

#[cfg(test)]
mod conf;
#[cfg(test)]
mod life;
#[cfg(test)]
mod props;
#[cfg(test)]
mod said;
#[cfg(test)]
mod tables;
