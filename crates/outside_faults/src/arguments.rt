//! The words of the command line: the program's own name is passed over, and a word behind it that isn't UTF-8 is told as such.
use std::alloc::Global;
use std::env::{Env, FillError};
use std::test::*;
use stream_ends::{WordsFault, words};

/// Arguments that are any bytes.
#[derive(Drop)]
struct Given<'a> {
    words: &'a [&'a [u8]],
}

impl Env for Given<'_> {
    fn arg(&self, i: usize, buf: &mut [u8]) -> Result<usize, FillError> {
        let Some(&word) = self.words.get(i) else {
            return Err(FillError::NotPresent);
        };
        if buf.len() < word.len() {
            return Err(FillError::TooLong);
        }
        buf[..word.len()].copy_from_slice(word);
        Ok(word.len())
    }

    fn var(&self, _name: &str, _buf: &mut [u8]) -> Result<usize, FillError> {
        Err(FillError::NotPresent)
    }

    fn var_at(&self, _i: usize, _buf: &mut [u8]) -> Result<usize, FillError> {
        Err(FillError::NotPresent)
    }
}

/// Whether the words of these arguments are these texts.
fn are(alloc: Global, given: &[&[u8]], texts: &[&str]) -> bool {
    match words(&Given { words: given }, alloc) {
        Ok(found) => {
            found.len() == texts.len()
                && found
                    .iter()
                    .zip(texts)
                    .all(|(word, text)| word.as_str() == *text)
        }
        Err(_) => false,
    }
}

#[test]
fn the_name_of_the_program_is_passed_over(rt: HostRuntime) {
    assert!(rt; are(rt.alloc(), &[b"\xFF/pareas", b"run"], &["pareas", "run"]));
    assert!(rt;
        are(
            rt.alloc(),
            &[b"pareas", b"table", b"--word", b"\xC3\xA4"],
            &["pareas", "table", "--word", "\u{E4}"]
        )
    );
    assert!(rt; are(rt.alloc(), &[], &["pareas"]));
}

#[test]
fn words_that_are_no_text_are_told(rt: HostRuntime) {
    let given: &[&[u8]] = &[b"pareas", b"build", b"\xFF"];
    let told = words(&Given { words: given }, rt.alloc()).err();
    assert!(rt; told == Some(WordsFault::NotUtf8));
}
