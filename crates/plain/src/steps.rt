// The steps of GIFT as document 01 numbers them, for either member: a state is lent as its nibbles, nibble i at place i, and their number says its width.
ghost use Rattle.std.specs.Prelude.{◌≡◌, ℕ, ◌*◌, ◌≤◌, ◌<◌, length, get_or};
ghost use Rattle.bits.specs.Digit.{one, bit};
ghost use Rattle.published.specs.Rounds.{sub_cells, P, perm_bits, xored, key_bit, constant_bit, step, round, unround};
ghost use Rattle.published.specs.Inner.{un_perm_bits};
ghost use Rattle.plain.specs.Inner.{state_of, by, Nibbles, one_at, pair};

// ---- a round

const TABLE: [u8; 16] = [1, 0xa, 4, 0xc, 6, 0xf, 3, 9, 2, 0xd, 0xb, 7, 5, 0, 8, 0xe];

// 1. Each nibble x becomes entry x of the table.
fn sub_cells(s: &mut [u8], table: [u8; 16])
    requires { Nibbles s.old × ((x : ℕ) → x < 16 → get_or table x 0 < 16) }
    ensures { s.new ≡ by (sub_cells (λ x. get_or table x 0)) s.old }
{
    for x in s.iter_mut() {
        *x = table[*x as usize];
    }
}

// P(i) in a state of n bits.
fn p(n: usize, i: usize) -> usize
    requires { (i < n) × (n ≤ 128) }
    ensures { result ≡ P n i }
{
    4 * (i / 16) + n / 4 * ((3 * (i % 16 / 4) + i % 4) % 4) + i % 4
}

// 2. Bit i moves to P(i).
fn perm_bits(s: &mut [u8])
    requires { Nibbles s.old }
    ensures { s.new ≡ by perm_bits s.old }
{
    let n = 4 * s.len();
    let mut moved = [0u8; 32];
    for i in 0..n {
        xor_bit(&mut moved, p(n, i), state_bit(s, i));
    }
    s.copy_from_slice(&moved[..s.len()]);
}

// 3. Bit i of U is xored into b(4i+j+1), and bit i of V into b(4i+j).
fn add_round_key(s: &mut [u8], j: usize, u: u32, v: u32)
    requires { Nibbles s.old × (j < 3) }
    ensures { s.new ≡ by (λ n. xored n (key_bit j (pair u v))) s.old }
{
    for i in 0..s.len() {
        xor_bit(s, 4 * i + j + 1, bit(u, i));
        xor_bit(s, 4 * i + j, bit(v, i));
    }
}

// 4. The highest bit is flipped; b23, b19, b15, b11, b7, b3 are xored with c5..c0 of the round constant.
fn add_constant(s: &mut [u8], c: u8)
    requires { Nibbles s.old }
    ensures { s.new ≡ by (λ n. xored n (constant_bit n c)) s.old }
{
    let n = 4 * s.len();
    xor_bit(s, n - 1, 1);
    for i in 0..6 {
        xor_bit(s, 4 * i + 3, bit(c as u32, i));
    }
}

// Steps 1 to 4, by the pair U, V and the constant c.
pub(crate) fn round(s: &mut [u8], j: usize, u: u32, v: u32, c: u8)
    requires { Nibbles s.old × (j < 3) }
    ensures { s.new ≡ by (λ n. round n j (pair u v) c) s.old }
{
    sub_cells(s, TABLE);
    perm_bits(s);
    add_round_key(s, j, u, v);
    add_constant(s, c);
}

// ---- a round undone

const INVERSE: [u8; 16] = [0xd, 0, 8, 6, 2, 0xc, 4, 0xb, 0xe, 7, 1, 0xa, 3, 9, 0xf, 5];

// Bit P(i) moves back to i.
fn un_perm_bits(s: &mut [u8])
    requires { Nibbles s.old }
    ensures { s.new ≡ by un_perm_bits s.old }
{
    let n = 4 * s.len();
    let mut moved = [0u8; 32];
    for i in 0..n {
        xor_bit(&mut moved, i, state_bit(s, p(n, i)));
    }
    s.copy_from_slice(&moved[..s.len()]);
}

// The last step first; 4 and 3 undo themselves.
pub(crate) fn unround(s: &mut [u8], j: usize, u: u32, v: u32, c: u8)
    requires { Nibbles s.old × (j < 3) }
    ensures { s.new ≡ by (λ n. unround n j (pair u v) c) s.old }
{
    add_constant(s, c);
    add_round_key(s, j, u, v);
    un_perm_bits(s);
    sub_cells(s, INVERSE);
}

// ---- the constant

// (c5,c4,c3,c2,c1,c0) becomes (c4,c3,c2,c1,c0, c5 xor c4 xor 1).
pub(crate) fn step_constant(c: u8) -> u8
    ensures { result ≡ step c }
{
    c % 32 * 2 + (bit(c as u32, 5) ^ bit(c as u32, 4) ^ 1)
}

// ---- bits

// Bit i of x.
fn bit(x: u32, i: usize) -> u8
    requires { i < 32 }
    ensures { result ≡ one (bit x i) }
{
    (x >> i & 1) as u8
}

// Bit q of a state, b(q).
fn state_bit(s: &[u8], q: usize) -> u8
    requires { Nibbles s.now × (q < 4 * length s.now) }
    ensures { result ≡ one (bit (state_of s.now) q) }
{
    bit(s[q / 4] as u32, q % 4)
}

// b(q) is xored with b, 0 or 1.
fn xor_bit(s: &mut [u8], q: usize, b: u8)
    requires nibbles { Nibbles s.old }
    requires q_bound { q < 4 * length s.old }
    requires b_bound { b < 2 }
    ensures { s.new ≡ by (λ n. xored n (one_at q b)) s.old }
{
    s[q / 4] ^= b << (q % 4);
}
