//! Pages that are partitioned anew, by hand and by whole runs on threads. Nothing stands on this
//! crate. What each call does is proved in `layout_tuner` and `tune_run`; the words of pages, and that
//! calls succeed where they can, are tested here. The tests have a crate of their own since a crate
//! with tests is proved twice.
#![tactic(auto)]

#[cfg(test)]
mod pages;
#[cfg(test)]
mod runs;
