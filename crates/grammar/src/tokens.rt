// When two tokens count as the same.
ghost use Rattle.std.specs.Prelude.{◌≡◌};
ghost use Rattle.grammar.specs.Tokens.{TokenLaws, same_token};

// In one place, and not by `==` where it is used: it is the rule when two tokens count as the same.
pub fn same_token(a: u16, b: u16) -> bool
    ensures value { result ≡ same_token a b }
    ensures law { TokenLaws }
{
    a == b
}
