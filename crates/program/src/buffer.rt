// Zeros for a written program.
ghost use Rattle.std.specs.Prelude.{◌≡◌, length, replicate};

// 4 times 4,307, the most steps that a checked plan has. That the length stands in a clause of its own lets a caller lend the array without carrying
// a list of so many zeros through its proof. (`text` has a generic one of bytes; for numbers of 16 bits too it would need another zero.)
pub fn steps_buffer() -> [u16; 17228]
    ensures value { 17228 ≡ length result }
    ensures value_2 { result ≡ replicate 17228 0 }
{
    [0; 17228]
}
