// Laws about what is due, each the contract of a function that does nothing.

ghost use Rattle.std.specs.Prelude.{◌≡◌, ℕ, Bool, false, List};
ghost use Rattle.command_line.specs.declared.command.Command.TheVariants.{Asm, Dump, Page, Show};
ghost use Rattle.command_line.specs.declared.command.Pass.{Pass};
ghost use Rattle.pareas_core.specs.Headline.{CompilesTo};
ghost use Rattle.pareas_core.specs.Output.{Due, IsDue, done};
ghost use Rattle.pass_views.specs.Shown.{IsPage, Shows};
ghost use Rattle.source_meaning.specs.Ast.{Program};
ghost use Rattle.verdict.specs.Verdict.{Accepted, IsVerdict};

use elf_text::listings_give_their_files;
use simulation::accepted_code_fits;
use verdict::one_verdict;

/// `asm` gives the image of a program again from what `dump` writes of it.
pub fn images_are_listed_and_assembled()
    ensures { (fold : Bool) (source file : List ℕ) → CompilesTo fold source file → (text : List ℕ) × IsDue Dump file (done text) × IsDue Asm text (done file) }
{
    listings_give_their_files();
    accepted_code_fits();
}

/// Whatever is due for `show` and a source that is accepted is the tables of the pass, or the page: what `build` says is due for a source
/// that is refused alone.
pub fn accepted_sources_are_shown()
    ensures tables { (pass : Pass) (s : List ℕ) (p : Program) (d : Due) → IsVerdict false s (Accepted p) → IsDue (Show pass) s d → (text : List ℕ) × Shows s pass text × (d ≡ done text) }
    ensures page { (s : List ℕ) (p : Program) (d : Due) → IsVerdict false s (Accepted p) → IsDue Page s d → (text : List ℕ) × IsPage s text × (d ≡ done text) }
{
    one_verdict();
}
