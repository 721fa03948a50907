// Inverses modulo a prime of at most 251.
ghost use Rattle.field.specs.Prime.{Prime, Inverses};

use crate::modulus::Modulus;

// The inverses modulo 251 by the number; 0 has none, and entry 0 is 0.
const INVERSES: [u16; 251] = [
    0, 1, 126, 84, 63, 201, 42, 36, 157, 28, 226, 137, 21, 58, 18, 67, 204, 192, 14, 185, 113, 12,
    194, 131, 136, 241, 29, 93, 9, 26, 159, 81, 102, 213, 96, 208, 7, 95, 218, 103, 182, 49, 6,
    216, 97, 106, 191, 235, 68, 41, 246, 64, 140, 90, 172, 178, 130, 229, 13, 234, 205, 107, 166,
    4, 51, 112, 232, 15, 48, 211, 104, 99, 129, 196, 173, 164, 109, 163, 177, 197, 91, 31, 150,
    124, 3, 189, 108, 176, 174, 110, 53, 80, 221, 27, 243, 37, 34, 44, 146, 71, 123, 169, 32, 39,
    70, 153, 45, 61, 86, 76, 89, 199, 65, 20, 240, 227, 132, 118, 117, 135, 228, 195, 179, 100, 83,
    249, 2, 168, 151, 72, 56, 23, 116, 134, 133, 119, 24, 11, 231, 186, 52, 162, 175, 165, 190,
    206, 98, 181, 212, 219, 82, 128, 180, 105, 207, 217, 214, 8, 224, 30, 171, 198, 141, 77, 75,
    143, 62, 248, 127, 101, 220, 160, 54, 74, 88, 142, 87, 78, 55, 122, 152, 147, 40, 203, 236, 19,
    139, 200, 247, 85, 144, 46, 17, 238, 22, 121, 73, 79, 161, 111, 187, 5, 210, 183, 16, 60, 145,
    154, 35, 245, 202, 69, 148, 33, 156, 244, 43, 155, 38, 149, 170, 92, 225, 242, 158, 222, 10,
    115, 120, 57, 239, 138, 66, 237, 59, 47, 184, 233, 193, 230, 114, 25, 223, 94, 215, 209, 50,
    188, 167, 125, 250,
];

// The same by value.
fn table() -> [u16; 251]
    ensures { Inverses 251 result }
{
    INVERSES
}

// The inverses modulo p by the number, from 1 to p - 1; entry 0 is 0, the entries from p are any. At 251, the largest
// modulus and the usual one, by the table; else each of the lower half from one before it: p = k a + r makes 1 / a the same
// as -k / r, and r is less than a; and each of the upper half from its mirror in the lower: 1 / (p - a) is -1 / a.
pub fn inverses(modulus: Modulus) -> [u16; 251]
    requires { Prime modulus.p }
    ensures { Inverses modulus.p result }
{
    let p = modulus.p;
    let mut out = table();
    if p == 251 {
        return out;
    }
    out[(p - 1) as usize] = p - 1;
    for a in 2..p.div_ceil(2) {
        let inverse = modulus.reduce((p - p / a) * out[(p % a) as usize]);
        out[a as usize] = inverse;
        out[(p - a) as usize] = p - inverse;
    }
    out
}
