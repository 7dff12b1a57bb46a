// What the check says of the source language's grammar.

ghost use Rattle.std.specs.Prelude.{◌≡◌, Ok, length, true};
ghost use Rattle.grammar_file.specs.Grammar.{Grammar};
ghost use Rattle.grammar_file.specs.Spelling.{read};
ghost use Rattle.llp_tables.specs.Certificate.{accepted};
ghost use Rattle.llp_tables.specs.CertificateOfG2.{certificate_of_g2};

use grammar_file::G2;
use llp_tables::certificate_of_g2_is_accepted;

/// The check says yes of the source language's grammar and its certificate.
pub fn certificate_of_g2_passes()
    ensures { (g : Grammar) → read G2.now ≡ Ok g → length g.productions ≡ 56 → accepted certificate_of_g2 g ≡ true }
{
    certificate_of_g2_is_accepted();
}
