//! The definitions of scripts: names of calls, text of fields, statements, scripts and the runs of their threads. All of
//! them are in `specs/`.
#![tactic(auto)]
