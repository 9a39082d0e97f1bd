// What C calls. The functions stand in the libraries export_*, and each export here calls one of them and promises the same.
#![tactic(auto)]

mod differences;
mod files;
mod indexes;
mod maps;
mod pairs;
mod pictures;
mod reasons;
mod records;
mod renumberings;
mod sidedefs;
mod texts;
