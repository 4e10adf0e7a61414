//! Tests of small crates: text items, images, varints, geometry, bodies of commits, sessions,
//! claims, reports, summaries, workloads, inputs. Nothing stands on this crate. What each call does
//! is proved in its own. The tests stand together here since a crate with tests is proved twice.
#![tactic(auto)]

#[cfg(test)]
mod bodies;
#[cfg(test)]
mod claims;
#[cfg(test)]
mod geometry;
#[cfg(test)]
mod images;
#[cfg(test)]
mod inputs;
#[cfg(test)]
mod reports;
#[cfg(test)]
mod sessions;
#[cfg(test)]
mod summaries;
#[cfg(test)]
mod text_items;
#[cfg(test)]
mod varints;
#[cfg(test)]
mod workloads;
