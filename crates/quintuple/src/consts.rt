// GIFT round constants according to the fixsliced representation. After consts.rs.
ghost use Rattle.std.specs.Prelude.{◌≡◌, cond, ◌%◌, ltb};
ghost use Rattle.round_words.specs.Arranged.{constant_word};

pub const GIFT_RC: [u32; 40] = [
    0x10000008, 0x80018000, 0x54000002, 0x01010181, 0x8000001f, 0x10888880, 0x6001e000, 0x51500002,
    0x03030180, 0x8000002f, 0x10088880, 0x60016000, 0x41500002, 0x03030080, 0x80000027, 0x10008880,
    0x4001e000, 0x11500002, 0x03020180, 0x8000002b, 0x10080880, 0x60014000, 0x01400002, 0x02020080,
    0x80000021, 0x10000080, 0x0001c000, 0x51000002, 0x03010180, 0x8000002e, 0x10088800, 0x60012000,
    0x40500002, 0x01030080, 0x80000006, 0x10008808, 0xc001a000, 0x14500002, 0x01020181, 0x8000001a,
];

// The word of round r, from 0: the one rule of the table. Past its end there is no round, and the answer is 0.
pub fn round_constant(r: usize) -> u32
    ensures { result ≡ cond (ltb r 40) (constant_word (r % 5) r) 0 }
{
    if r < 40 { GIFT_RC[r] } else { 0 }
}
