ghost use Rattle.std.specs.Prelude.{[], ◌∷◌, None, Some, true, codes};
ghost use Rattle.aplsv_words.specs.Laws.{MeanNothing, WordsHaveOneMeaning, nothing, replay_alone};
ghost use Rattle.aplsv_words.specs.Looks.{LooksHaveOneMeaning, MeanNoLook, MeanToLook};
ghost use Rattle.aplsv_words.specs.Meaning.{Means};
ghost use Rattle.aplsv_words.specs.declared.look.Look.TheVariants.{Picture, Why};

/// Words have one meaning and no other. The call does nothing.
pub fn words_have_one_meaning()
    ensures { WordsHaveOneMeaning }
{}

/// Words mean one look and no other. The call does nothing.
pub fn looks_have_one_meaning()
    ensures { LooksHaveOneMeaning }
{}

/// Words at work: none; one; all, in another order and with values in both ways; a value that begins with a hyphen behind
/// its `=`, and one that has another `=`; workers, and a load, the most of them too; component files and a relay, alone and beside all else. And words that mean nothing: with a value that
/// begins with a hyphen, is empty, or is not there; with one that is not taken, or is no count; twice; two of a replay, workers and
/// a load; short, cut, bare, or none of the table. The call does nothing.
pub fn worked_words()
    ensures none { Means [] nothing }
    ensures replay { Means (codes "--replay" ∷ []) replay_alone }
    ensures all { Means (codes "--clock" ∷ codes "--text=NOTES" ∷ codes "--replay" ∷ codes "--library" ∷ codes "SAVED" ∷ [])
        (record replay_alone { library = Some (codes "SAVED"); text = Some (codes "NOTES"); clock = true }) }
    ensures hyphen { Means (codes "--library=-x" ∷ []) (record nothing { library = Some (codes "-x") }) }
    ensures equals { Means (codes "--text=a=b" ∷ []) (record nothing { text = Some (codes "a=b") }) }
    ensures hyphen_apart { MeanNothing (codes "--library" ∷ codes "-x" ∷ []) }
    ensures name_apart { MeanNothing (codes "--text" ∷ codes "--clock" ∷ []) }
    ensures empty { MeanNothing (codes "--text=" ∷ []) }
    ensures empty_apart { MeanNothing (codes "--text" ∷ [] ∷ []) }
    ensures missing { MeanNothing (codes "--replay" ∷ codes "--library" ∷ []) }
    ensures untaken { MeanNothing (codes "--replay=yes" ∷ []) }
    ensures untaken_apart { MeanNothing (codes "--clock" ∷ codes "now" ∷ []) }
    ensures twice { MeanNothing (codes "--replay" ∷ codes "--replay" ∷ []) }
    ensures value_twice { MeanNothing (codes "--text=A" ∷ codes "--text" ∷ codes "B" ∷ []) }
    ensures short { MeanNothing (codes "-r" ∷ []) }
    ensures cut { MeanNothing (codes "--rep" ∷ []) }
    ensures bare { MeanNothing (codes "--replay" ∷ codes "--" ∷ []) }
    ensures one_hyphen { MeanNothing (codes "-" ∷ []) }
    ensures help { MeanNothing (codes "--help" ∷ []) }
    ensures workers { Means (codes "--workers" ∷ codes "2" ∷ []) (record nothing { workers = Some 2 }) }
    ensures workers_beside { Means (codes "--workers=34" ∷ codes "--clock" ∷ []) (record nothing { workers = Some 34; clock = true }) }
    ensures workers_none { MeanNothing (codes "--workers" ∷ codes "0" ∷ []) }
    ensures workers_past { MeanNothing (codes "--workers=35" ∷ []) }
    ensures workers_zero { MeanNothing (codes "--workers" ∷ codes "07" ∷ []) }
    ensures workers_missing { MeanNothing (codes "--workers" ∷ []) }
    ensures workers_replayed { MeanNothing (codes "--workers" ∷ codes "2" ∷ codes "--replay" ∷ []) }
    ensures workers_loaded { MeanNothing (codes "--workers" ∷ codes "2" ∷ codes "--load=5" ∷ []) }
    ensures load { Means (codes "--load" ∷ codes "5" ∷ []) (record nothing { load = Some 5 }) }
    ensures load_beside { Means (codes "--clock" ∷ codes "--load=100000" ∷ []) (record nothing { clock = true; load = Some 100000 }) }
    ensures load_of_none { MeanNothing (codes "--load" ∷ codes "0" ∷ []) }
    ensures load_past { MeanNothing (codes "--load=100001" ∷ []) }
    ensures load_zero { MeanNothing (codes "--load" ∷ codes "05" ∷ []) }
    ensures load_plus { MeanNothing (codes "--load=+5" ∷ []) }
    ensures load_minus { MeanNothing (codes "--load=-5" ∷ []) }
    ensures load_twice { MeanNothing (codes "--load=5" ∷ codes "--load=5" ∷ []) }
    ensures components { Means (codes "--replay" ∷ codes "--components" ∷ []) (record replay_alone { components = true }) }
    ensures relay { Means (codes "--relay" ∷ codes "--replay" ∷ []) (record replay_alone { relay = true }) }
    ensures both_beside { Means (codes "--relay" ∷ codes "--load=5" ∷ codes "--components" ∷ codes "--text=A" ∷ []) (record nothing { text = Some (codes "A"); load = Some 5; components = true; relay = true }) }
    ensures components_untaken { MeanNothing (codes "--components=A" ∷ []) }
    ensures relay_twice { MeanNothing (codes "--relay" ∷ codes "--replay" ∷ codes "--relay" ∷ []) }
    ensures load_replayed { MeanNothing (codes "--load" ∷ codes "5" ∷ codes "--replay" ∷ []) }
{}

/// Words that ask for a look: a picture of all entries, of those from a place, up to one, and between two, in any order and with
/// values in both ways; and why an entry is what it is, the last one that a word can name too. And words that ask for none: none;
/// a place without a picture; a picture beside a reason; a place that is zero, has a zero in front, a sign, or is too large; one
/// that is not there; a word twice, with a value that it does not take, or of another table. The call does nothing.
pub fn worked_looks()
    ensures picture { MeanToLook (codes "--picture" ∷ []) (Picture None None) }
    ensures from { MeanToLook (codes "--picture" ∷ codes "--from" ∷ codes "7" ∷ []) (Picture (Some 7) None) }
    ensures stretch { MeanToLook (codes "--to=9" ∷ codes "--picture" ∷ codes "--from=7" ∷ []) (Picture (Some 7) (Some 9)) }
    ensures why { MeanToLook (codes "--why" ∷ codes "7" ∷ []) (Why 7) }
    ensures none { MeanNoLook [] }
    ensures to_alone { MeanNoLook (codes "--to=9" ∷ []) }
    ensures why_beside { MeanNoLook (codes "--picture" ∷ codes "--why=7" ∷ []) }
    ensures why_from { MeanNoLook (codes "--why=7" ∷ codes "--from=7" ∷ []) }
    ensures zero { MeanNoLook (codes "--why=0" ∷ []) }
    ensures leading_zero { MeanNoLook (codes "--why=07" ∷ []) }
    ensures plus { MeanNoLook (codes "--picture" ∷ codes "--to=+9" ∷ []) }
    ensures missing { MeanNoLook (codes "--why" ∷ []) }
    ensures twice { MeanNoLook (codes "--picture" ∷ codes "--picture" ∷ []) }
    ensures untaken { MeanNoLook (codes "--picture=9" ∷ []) }
    ensures other { MeanNoLook (codes "--picture" ∷ codes "--replay" ∷ []) }
{}
