// What holds of the explanations.
ghost use Rattle.std.specs.Prelude.{◌≡◌, [], ◌∷◌, true};
ghost use Rattle.std.specs.List.{list_all};
ghost use Rattle.diagnostic_texts.specs.Explained.{ascend, codes_explained, has_three_digits};

/// Which codes have an explanation. They ascend, so each has one, and all have three digits.
pub fn explanations_are_in_order()
    ensures codes { codes_explained ≡ 101 ∷ 102 ∷ 201 ∷ 301 ∷ 302 ∷ 303 ∷ 401 ∷ 402 ∷ 403 ∷ 404 ∷ 405 ∷ 406 ∷ 501 ∷ 502 ∷ 503 ∷ 504 ∷ 505 ∷ 506 ∷ 507 ∷ 601 ∷ 602 ∷ 603 ∷ [] }
    ensures one_each { ascend codes_explained ≡ true }
    ensures short { list_all has_three_digits codes_explained ≡ true }
{}
