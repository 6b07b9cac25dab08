//! The definitions of features that are to be built: lean files and listings. All of them are in `specs/`.
#![tactic(auto)]
