// Two's complement: a signed number of 64 or 32 bits and its bits. Each is the library's call under the definition's name; one over the width would say no more.
ghost use Rattle.std.specs.Prelude.{◌≡◌};
ghost use Rattle.octets.specs.Signed.{bits_of, signed_of};

pub fn bits_of(z: i64) -> u64
    ensures { result ≡ bits_of 64 z }
{
    z.cast_unsigned()
}

pub fn signed_of(w: u64) -> i64
    ensures { result ≡ signed_of 64 w }
{
    w.cast_signed()
}

pub fn bits32_of(z: i32) -> u64
    ensures { result ≡ bits_of 32 z }
{
    u64::from(z.cast_unsigned())
}

pub fn signed32_of(w: u32) -> i32
    ensures { result ≡ signed_of 32 w }
{
    w.cast_signed()
}
