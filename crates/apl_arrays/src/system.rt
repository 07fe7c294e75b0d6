ghost use Rattle.std.specs.Prelude.{◌≡◌, ◌∷◌, ◌++◌, [], codes};
ghost use Rattle.apl_arrays.specs.Glyph.{quad};
ghost use Rattle.apl_arrays.specs.System.{system_text};

use crate::Glyph;

/// The name of a system function.
#[derive(Clone, Copy, Debug, PartialEq, Eq, Hash)]
pub enum SystemName {
    Svo,
    Svc,
    Svr,
    Svq,
    Svs,
}

impl SystemName {
    /// All of them.
    pub const ALL: [SystemName; 5] = [
        SystemName::Svo,
        SystemName::Svc,
        SystemName::Svr,
        SystemName::Svq,
        SystemName::Svs,
    ];

    /// How it is written: `⎕` and three letters.
    pub fn glyphs(self) -> [Glyph; 4]
        ensures { result ≡ system_text self }
    {
        [
            Glyph::QUAD,
            Glyph::with_code(b'S'),
            Glyph::with_code(b'V'),
            self.last_letter(),
        ]
    }

    fn last_letter(self) -> Glyph
        ensures { quad ∷ codes "SV" ++ result ∷ [] ≡ system_text self }
    {
        match self {
            SystemName::Svo => Glyph::with_code(b'O'),
            SystemName::Svc => Glyph::with_code(b'C'),
            SystemName::Svr => Glyph::with_code(b'R'),
            SystemName::Svq => Glyph::with_code(b'Q'),
            SystemName::Svs => Glyph::with_code(b'S'),
        }
    }
}
