//! Worked words, listings, files and machines, with values from the standards and from another assembler.
#![tactic(auto)]

#[cfg(test)]
mod chains;
#[cfg(test)]
mod dumps;
#[cfg(test)]
mod files;
#[cfg(test)]
mod headers;
#[cfg(test)]
mod linked;
#[cfg(test)]
mod listings;
#[cfg(test)]
mod machines;
#[cfg(test)]
mod prints;
#[cfg(test)]
mod regions;
#[cfg(test)]
mod runs;
#[cfg(test)]
mod words;
