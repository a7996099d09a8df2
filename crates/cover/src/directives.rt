// The directive of a line.
ghost use Rattle.std.specs.Prelude.{◌≡◌};
ghost use Rattle.cover.specs.Directives.{directive, rows_after};

#[derive(Clone, Copy)]
pub enum Directive {
    Ignored,
    Inputs,
    Outputs,
    Names,
    Other,
}

impl Directive {
    // Whether rows may follow it.
    pub fn takes_rows(self) -> bool
        ensures { result ≡ rows_after self }
    {
        matches!(self, Directive::Names)
    }
}

// The directive of a word. A `match` on it would leave a goal for each byte that may differ, 37 in all.
#[tactic(auto, using(text::proofs::ByteLaws::same_pointwise), unfolding(crate::specs::Directives::directive))]
pub fn directive_of(word: &[u8]) -> Directive
    ensures { result ≡ directive word.now }
{
    if word == b".model".as_slice() || word == b".end".as_slice() {
        Directive::Ignored
    } else if word == b".inputs".as_slice() {
        Directive::Inputs
    } else if word == b".outputs".as_slice() {
        Directive::Outputs
    } else if word == b".names".as_slice() {
        Directive::Names
    } else {
        Directive::Other
    }
}
