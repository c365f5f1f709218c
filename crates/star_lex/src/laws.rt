//! What the specification implies.
ghost use Rattle.std.specs.Prelude.{◌≡◌, List, ℕ};
ghost use Rattle.star_lex.specs.Tokens.{Lexes};
ghost use Rattle.star_lex.specs.declared.token.Token.{Token};

/// A text has at most one token list.
pub fn one_token_list()
    ensures { (text : List ℕ) (tokens others : List Token)
        → Lexes text tokens
        → Lexes text others
        → tokens ≡ others }
{}
