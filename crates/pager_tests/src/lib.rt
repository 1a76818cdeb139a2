//! Tests of the ciphers, the page states, the table of files, the pager, the side of a step over it, and the table of kept
//! translations.
#![tactic(auto)]

#[cfg(test)]
mod chain;
#[cfg(test)]
mod checks;
#[cfg(test)]
mod cipher;
#[cfg(test)]
mod files;
#[cfg(test)]
mod pager;
#[cfg(test)]
mod plain_shadows;
#[cfg(test)]
mod shadows;
#[cfg(test)]
mod side;
#[cfg(test)]
mod states;
