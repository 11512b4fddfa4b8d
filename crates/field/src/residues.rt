// One residue: multiply and reduce, and the inverse. p is a byte, and `Modulus p` a clause: a type of its own would be made anew at each call, since it
// comes out of a `Plan`, whose p is a byte.
ghost use Rattle.std.specs.Prelude.{◌≡◌, ◌+◌, ◌*◌, ◌/◌, ◌%◌, ◌^◌, ◌<◌, ◌≤◌, max};
ghost use Rattle.field.specs.Residues as specs;

// 65536 / p, the factor by which `cell` divides by p.
pub fn reciprocal(p: u8) -> u16
    requires { specs.Modulus p }
    ensures { result ≡ 65536 / p }
{
    (65536 / (p as u32)) as u16
}

// x plus g times y, modulo p, without a division: q is the quotient or one less, so that one conditional subtraction ends it.
// All of it stays in 16 bits, which lets a loop over it use vector instructions. m is `reciprocal(p)`, made once for a row.
pub fn cell(x: u8, y: u8, g: u8, p: u8, m: u16) -> u8
    requires modulus { specs.Modulus p }
    requires m_value { m ≡ 65536 / p }
    requires x_lt_p { (x < p) × (y < p) × (g ≤ p) }
    ensures { result ≡ (x + g * y) % p }
{
    let v = (x as u16) + (g as u16) * (y as u16);
    let q = ((v as u32) * (m as u32) / 65536) as u16;
    let r = v - q * (p as u16);
    if r < (p as u16) {
        return r as u8;
    }
    (r - (p as u16)) as u8
}

// 4294967296 / p, the factor by which `remainder` divides by p.
pub fn wide_reciprocal(p: u8) -> u32
    requires { specs.Modulus p }
    ensures { result ≡ 4294967296 / p }
{
    (4294967296 / (p as u64)) as u32
}

// v modulo p, by the same way as `cell` at 32 bits. m is `wide_reciprocal(p)`, made once for a row.
// Not one function with `cell`, nor `wide_reciprocal` with `reciprocal`: over a trait of widths each division and cast would be a method of its own, for
// four lines. The proof is one, over any base (`Reduction`).
pub fn remainder(v: u32, p: u8, m: u32) -> u8
    requires modulus { specs.Modulus p }
    requires m_value { m ≡ 4294967296 / p }
    ensures { result ≡ v % p }
{
    let q = ((v as u64) * (m as u64) / 4294967296) as u32;
    let r = v - q * (p as u32);
    if r < (p as u32) {
        return r as u8;
    }
    (r - (p as u32)) as u8
}

// b where e is odd, 1 where it is even.
fn odd_factor(b: u8, e: u8) -> u8
    ensures { (result ≡ b ^ (e % 2)) × (result ≤ max b 1) }
{
    if e % 2 == 1 {
        return b;
    }
    1
}

// a to the power p - 2, modulo p, by squaring: for a prime p the inverse of a. A while: e is halved, which no range does.
pub fn inverse(a: u8, p: u8) -> u8
    requires modulus { specs.Modulus p }
    requires a_lt_p { a < p }
    ensures { result ≡ specs.inverse p a }
{
    let m = reciprocal(p);
    let mut power: u8 = 1;
    let mut base = a;
    let mut e = p - 2;
    while 0 < e {
        power = cell(0, power, odd_factor(base, e), p, m);
        base = cell(0, base, base, p, m);
        e = e / 2;
    }
    power
}
