//! What the definitions say of words.
ghost use Rattle.std.specs.Prelude.{◌≡◌, ◌⊎◌, ℕ, List, [], ◌∷◌, Some, None, true, false, codes, is_some};
ghost use Rattle.clap.specs.Words.{fault_of};
ghost use Rattle.command_line.specs.declared.command.Command.TheVariants.{Build, Run, Show, Page, Batch, Emu, Dump, Asm, Table, Drill, Explain};
ghost use Rattle.command_line.specs.declared.command.Pass.TheVariants.{States, Pairs, Rows, Places, All};
ghost use Rattle.command_line.specs.Words.{Asked, IsNoCode, IsNoView, app, asked, known};
ghost use Rattle.diagnostic_texts.specs.Explained.{explanation_of};

/// Words in which `clap` finds no fault ask for nothing exactly where they are to explain a code that no diagnostic has, or to show neither the page nor a pass, or both.
pub fn taken_words_ask()
    ensures asks { (words : List (List ℕ)) → fault_of app words ≡ [] → ((a : Asked) × (asked words ≡ Some a)) ⊎ (IsNoCode words ⊎ IsNoView words) }
    ensures no_code { (words : List (List ℕ)) → IsNoCode words → asked words ≡ None }
    ensures no_view { (words : List (List ℕ)) → IsNoView words → asked words ≡ None }
    ensures unless { (a : Asked) → known a ≡ None → (code : ℕ) × (a.command ≡ Explain code) × (explanation_of code ≡ None) }
{}

/// What is to be explained, has an explanation.
pub fn asked_codes_are_explained()
    ensures { (words : List (List ℕ)) (a : Asked) (code : ℕ) → asked words ≡ Some a → a.command ≡ Explain code → is_some (explanation_of code) ≡ true }
{}

/// What some words ask for.
pub fn worked_words()
    ensures build { asked (codes "pareas" ∷ codes "build" ∷ []) ≡ Some (record { command = Build false; workers = 4; chunk = 1024 }) }
    ensures fold { asked (codes "pareas" ∷ codes "build" ∷ codes "--fold" ∷ []) ≡ Some (record { command = Build true; workers = 4; chunk = 1024 }) }
    ensures fold_run { asked (codes "pareas" ∷ codes "run" ∷ codes "--fold" ∷ codes "--steps" ∷ codes "14" ∷ []) ≡ Some (record { command = Run 14 true; workers = 4; chunk = 1024 }) }
    ensures fold_twice { asked (codes "pareas" ∷ codes "build" ∷ codes "--fold" ∷ codes "--fold" ∷ []) ≡ None }
    ensures fold_valued { asked (codes "pareas" ∷ codes "build" ∷ codes "--fold=true" ∷ []) ≡ None }
    ensures fold_elsewhere { asked (codes "pareas" ∷ codes "emu" ∷ codes "--fold" ∷ []) ≡ None }
    ensures options { asked (codes "pareas" ∷ codes "run" ∷ codes "--steps=14" ∷ codes "--workers" ∷ codes "64" ∷ []) ≡ Some (record { command = Run 14 false; workers = 64; chunk = 1024 }) }
    ensures show { asked (codes "pareas" ∷ codes "show" ∷ codes "--pass" ∷ codes "rows" ∷ []) ≡ Some (record { command = Show Rows; workers = 4; chunk = 1024 }) }
    ensures show_all { asked (codes "pareas" ∷ codes "show" ∷ codes "--workers" ∷ codes "2" ∷ codes "--pass=all" ∷ []) ≡ Some (record { command = Show All; workers = 2; chunk = 1024 }) }
    ensures show_places { asked (codes "pareas" ∷ codes "show" ∷ codes "--pass" ∷ codes "places" ∷ []) ≡ Some (record { command = Show Places; workers = 4; chunk = 1024 }) }
    ensures show_states { asked (codes "pareas" ∷ codes "show" ∷ codes "--pass" ∷ codes "states" ∷ []) ≡ Some (record { command = Show States; workers = 4; chunk = 1024 }) }
    ensures show_pairs { asked (codes "pareas" ∷ codes "show" ∷ codes "--pass=pairs" ∷ []) ≡ Some (record { command = Show Pairs; workers = 4; chunk = 1024 }) }
    ensures page { asked (codes "pareas" ∷ codes "show" ∷ codes "--html" ∷ []) ≡ Some (record { command = Page; workers = 4; chunk = 1024 }) }
    ensures page_options { asked (codes "pareas" ∷ codes "show" ∷ codes "--workers" ∷ codes "2" ∷ codes "--html" ∷ codes "--chunk=7" ∷ []) ≡ Some (record { command = Page; workers = 2; chunk = 7 }) }
    ensures page_and_pass { asked (codes "pareas" ∷ codes "show" ∷ codes "--html" ∷ codes "--pass" ∷ codes "rows" ∷ []) ≡ None }
    ensures pass_and_page { asked (codes "pareas" ∷ codes "show" ∷ codes "--pass=all" ∷ codes "--html" ∷ []) ≡ None }
    ensures page_twice { asked (codes "pareas" ∷ codes "show" ∷ codes "--html" ∷ codes "--html" ∷ []) ≡ None }
    ensures page_elsewhere { asked (codes "pareas" ∷ codes "build" ∷ codes "--html" ∷ []) ≡ None }
    ensures no_pass { asked (codes "pareas" ∷ codes "show" ∷ codes "--pass" ∷ codes "row" ∷ []) ≡ None }
    ensures passless { asked (codes "pareas" ∷ codes "show" ∷ []) ≡ None }
    ensures two_passes { asked (codes "pareas" ∷ codes "show" ∷ codes "--pass" ∷ codes "rows" ∷ codes "--pass" ∷ codes "rows" ∷ []) ≡ None }
    ensures batch { asked (codes "pareas" ∷ codes "batch" ∷ []) ≡ Some (record { command = Batch; workers = 4; chunk = 1024 }) }
    ensures batch_options { asked (codes "pareas" ∷ codes "batch" ∷ codes "--chunk" ∷ codes "1" ∷ codes "--workers=2" ∷ []) ≡ Some (record { command = Batch; workers = 2; chunk = 1 }) }
    ensures fold_batch { asked (codes "pareas" ∷ codes "batch" ∷ codes "--fold" ∷ []) ≡ None }
    ensures emu { asked (codes "pareas" ∷ codes "emu" ∷ []) ≡ Some (record { command = Emu 1000000; workers = 1; chunk = 1 }) }
    ensures dump { asked (codes "pareas" ∷ codes "dump" ∷ []) ≡ Some (record { command = Dump; workers = 1; chunk = 1 }) }
    ensures asm { asked (codes "pareas" ∷ codes "asm" ∷ []) ≡ Some (record { command = Asm; workers = 1; chunk = 1 }) }
    ensures table { asked (codes "pareas" ∷ codes "table" ∷ []) ≡ Some (record { command = Table None false; workers = 1; chunk = 1 }) }
    ensures word { asked (codes "pareas" ∷ codes "table" ∷ codes "--word" ∷ codes "a b" ∷ []) ≡ Some (record { command = Table (Some (codes "a b")) false; workers = 1; chunk = 1 }) }
    ensures empty_word { asked (codes "pareas" ∷ codes "table" ∷ codes "--word" ∷ [] ∷ []) ≡ Some (record { command = Table (Some []) false; workers = 1; chunk = 1 }) }
    ensures entries { asked (codes "pareas" ∷ codes "table" ∷ codes "--entries" ∷ []) ≡ Some (record { command = Table None true; workers = 1; chunk = 1 }) }
    ensures word_and_entries { asked (codes "pareas" ∷ codes "table" ∷ codes "--word=a" ∷ codes "--entries" ∷ []) ≡ Some (record { command = Table (Some (codes "a")) true; workers = 1; chunk = 1 }) }
    ensures entries_valued { asked (codes "pareas" ∷ codes "table" ∷ codes "--entries=true" ∷ []) ≡ None }
    ensures entries_elsewhere { asked (codes "pareas" ∷ codes "asm" ∷ codes "--entries" ∷ []) ≡ None }
    ensures valueless { asked (codes "pareas" ∷ codes "table" ∷ codes "--word" ∷ []) ≡ None }
    ensures two_words { asked (codes "pareas" ∷ codes "table" ∷ codes "--word" ∷ codes "a" ∷ codes "--word" ∷ codes "b" ∷ []) ≡ None }
    ensures drill { asked (codes "pareas" ∷ codes "drill" ∷ codes "--seed" ∷ codes "1" ∷ codes "--functions" ∷ codes "2" ∷ []) ≡ Some (record { command = Drill 1 2; workers = 4; chunk = 1024 }) }
    ensures seedless { asked (codes "pareas" ∷ codes "drill" ∷ codes "--functions" ∷ codes "2" ∷ []) ≡ None }
    ensures explain { asked (codes "pareas" ∷ codes "explain" ∷ codes "504" ∷ []) ≡ Some (record { command = Explain 504; workers = 1; chunk = 1 }) }
    ensures unknown { asked (codes "pareas" ∷ codes "explain" ∷ codes "304" ∷ []) ≡ None }
    ensures codeless { asked (codes "pareas" ∷ codes "explain" ∷ []) ≡ None }
    ensures two_codes { asked (codes "pareas" ∷ codes "explain" ∷ codes "504" ∷ codes "505" ∷ []) ≡ None }
    ensures explain_shared { asked (codes "pareas" ∷ codes "explain" ∷ codes "504" ∷ codes "--workers" ∷ codes "2" ∷ []) ≡ None }
    ensures bare { asked (codes "pareas" ∷ []) ≡ None }
    ensures too_many { asked (codes "pareas" ∷ codes "build" ∷ codes "--workers" ∷ codes "65" ∷ []) ≡ None }
    ensures help { asked (codes "pareas" ∷ codes "--help" ∷ []) ≡ None }
{}
