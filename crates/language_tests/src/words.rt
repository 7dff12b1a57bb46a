// What is told of a word by its spelling, beside pieces that no memory holds.

use crate::answers::{LOOKBACKS, Question, is_text, long_beside_short, told};
use std::test::Fail;
use table_text::TableAnswer;

/// Words, and the places at which no sentence goes on.
const NO_SENTENCES: &[(&[u8], u64)] = &[(b"a a", 1), (b"a b", 1), (b"", 0), (b"b b", 1), (b"c", 0)];

const OF_B: &[u8] = b"terminals 2\nnonterminals 62\nproductions 63\nentries 4\nparse 1\n";

fn is_syntax(answer: &TableAnswer, place: u64) -> bool {
    matches!(answer, TableAnswer::Syntax { at } if *at == place)
}

#[test]
fn words_beside_long_pieces(rt: HostRuntime) -> Result<(), Fail> {
    for &lookback in LOOKBACKS {
        let text = long_beside_short(rt.alloc(), lookback)?;
        for workers in [1, 4] {
            for &(word, place) in NO_SENTENCES {
                let question = Question::Word(word);
                let answer = told(&rt, rt.alloc(), workers, text.as_bytes(), question)??;
                assert!(rt; is_syntax(&answer, place), "{lookback} {workers} {place}");
            }
            let question = Question::Word(b"b");
            let answer = told(&rt, rt.alloc(), workers, text.as_bytes(), question)??;
            assert!(rt; is_text(answer, OF_B), "{lookback} {workers}");
        }
    }
    Ok(())
}
