//! Laws of the functions that words make.
ghost use Rattle.std.specs.Prelude.{◌≡◌, ℕ, ◌<◌, ◌≤◌, ◌++◌, List, [], length, map, take, Some, slice_get, slice_index};
ghost use Rattle.word_monoid.specs.Folds.{prefixes};
ghost use Rattle.word_monoid.specs.Monoid.{IsItem};
ghost use Rattle.state_monoid.specs.Automaton.{Automaton, IsAutomaton, IsWord, run};
ghost use Rattle.state_monoid.specs.Image.{IsFunction, compose, image, IsNumbering, HasMoreThan};
ghost use Rattle.state_monoid.specs.Numbering.{function_of, byte_number, composition};

use crate::compositions::Compositions;

/// The function of two words, one behind the other, is that of the first and then that of the second. The empty word's is the identity.
pub fn words_compose()
    ensures words { (d : Automaton) (u v : List ℕ) → IsAutomaton d → IsWord u → image d (u ++ v) ≡ compose (image d u) (image d v) }
    ensures value { (d : Automaton) (word : List ℕ) (s : ℕ) → s < d.states → slice_index (image d word) s ≡ run d s word }
    ensures identity { (d : Automaton) (s : ℕ) → s < d.states → slice_index (image d []) s ≡ s }
{}

/// Composition is associative, with the identity as its unit.
pub fn composition_is_associative()
    ensures associative { (f g h : List ℕ) → IsFunction f → length f ≡ length g → compose (compose f g) h ≡ compose f (compose g h) }
    ensures left { (d : Automaton) (f : List ℕ) → length f ≡ d.states → compose (image d []) f ≡ f }
    ensures right { (d : Automaton) (f : List ℕ) → IsFunction f → length f ≡ d.states → compose f (image d []) ≡ f }
{}

/// Where at most 4,096 functions are all that words make, there aren't more than 4,096.
pub fn few_or_too_many()
    ensures { (d : Automaton) (functions : List (List ℕ)) → IsNumbering d functions → length functions ≤ 4096 → HasMoreThan d 4096 → ⊥ }
{}

/// The number of each byte's function is an item of the monoid.
pub fn bytes_have_items(compositions: &Compositions)
    ensures { (b : ℕ) → b < 256 → IsItem (composition compositions.now) (byte_number compositions.now b) }
{
    // The contract alone speaks of it.
    let _ = compositions;
}

/// What an automaton has read is known from the prefixes of the numbers of the bytes: at each place the function of the bytes before
/// it, and from each state the state that these lead to.
pub fn prefixes_are_runs(compositions: &Compositions, bytes: &[u8])
    ensures functions { (i c : ℕ) → slice_get (prefixes (composition compositions.now) (map (byte_number compositions.now) bytes.now)) i ≡ Some c
        → slice_get compositions.now.functions c ≡ Some (image compositions.now.automaton (take i bytes.now)) }
    ensures states { (i c s : ℕ) → slice_get (prefixes (composition compositions.now) (map (byte_number compositions.now) bytes.now)) i ≡ Some c
        → s < compositions.now.automaton.states → slice_index (function_of compositions.now c) s ≡ run compositions.now.automaton s (take i bytes.now) }
{
    // The contract alone speaks of these.
    let _ = compositions;
    let _ = bytes;
}
