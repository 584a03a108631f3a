// Flags: the lead bytes C2 and C3.
ghost use Rattle.std.specs.Prelude.{◌≡◌};
ghost use Rattle.field.specs.{Kind.Kind, Cell.mark_of, Code.Read.read_at};

#[tactic(auto, using(crate::proofs::Flags::flags))]
pub fn flag_at(s: &[u8], at: usize) -> Option<bool>
    ensures { result ≡ read_at mark_of Kind.flags s.now at }
{
    if s.len() <= at {
        return None;
    }
    match s[at] {
        0xC2 => Some(false),
        0xC3 => Some(true),
        _ => None,
    }
}
