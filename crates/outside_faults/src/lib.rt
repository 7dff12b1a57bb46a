//! Faults of the outside and damaged files, as tables of rows: what each command answers where one of its reads or writes fails, and what it
//! says of images that can't be loaded and of files that spell no grammar; and streams that fail.
#![tactic(auto)]

#[cfg(test)]
mod arguments;
#[cfg(test)]
mod calls;
#[cfg(test)]
mod grammars;
#[cfg(test)]
mod images;
#[cfg(test)]
mod pieces;
#[cfg(test)]
mod reads;
#[cfg(test)]
mod seven;
#[cfg(test)]
mod streams;
#[cfg(test)]
mod writes;
