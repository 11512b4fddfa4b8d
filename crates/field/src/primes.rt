// The odd primes up to 251 are a fixed list of 53, searched for p.
ghost use Rattle.std.specs.Prelude.{◌≡◌};
ghost use Rattle.field.specs.Primes.{odd_prime};

// Bytes: as numbers of eight bytes a search to the end took two to three times as long.
const PRIMES: [u8; 53] = [
    3, 5, 7, 11, 13, 17, 19, 23, 29, 31, 37, 41, 43, 47, 53, 59, 61, 67, 71, 73, 79, 83, 89, 97,
    101, 103, 107, 109, 113, 127, 131, 137, 139, 149, 151, 157, 163, 167, 173, 179, 181, 191, 193,
    197, 199, 211, 223, 227, 229, 233, 239, 241, 251,
];

// Whether p is an odd prime from 3 to 251.
pub fn is_odd_prime(p: usize) -> bool
    ensures { result ≡ odd_prime p }
{
    p <= 251 && PRIMES.contains(&(p as u8))
}
