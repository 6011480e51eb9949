//! Tests of crate `serve`: `analyse`, `serve` and `closing`, called as strangers do. Whole reports
//! are compared by `serve_check`.
#![tactic(auto)]

#[cfg(test)]
mod asked;
#[cfg(test)]
mod failing;
#[cfg(test)]
mod labels;
#[cfg(test)]
mod many;
#[cfg(test)]
mod reports;
#[cfg(test)]
mod requests;
#[cfg(test)]
mod workers;
