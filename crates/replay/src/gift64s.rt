// The calls of GIFT-64, by their names: the fields of each are in oracle/README.md.
use crate::text::Line;
use answers::Refusal;

// Whether the call leaves and gives what the line says, with a key.
fn changed<F: Fn(&[u8], &mut [u8]) -> Result<(), Refusal>>(line: Line, call: F) -> bool
    requires { F.IsAlwaysCallable call }
{
    let key = line.field(b"key");
    let mut lent = line.field(b"lent");
    let answer = call(key.bytes(), lent.lent_bytes());
    line.left(lent.bytes()) && line.says_number(answers::number(answer))
}

// None of a name that is none of these calls'.
pub(crate) fn right(name: &str, line: Line) -> Option<bool> {
    match name {
        "gift64_encrypt_by_key" => Some(changed(line, gift64::encrypt_by_key)),
        "gift64_decrypt_by_key" => Some(changed(line, gift64::decrypt_by_key)),
        "gift64_encrypt_blocks" => Some(changed(line, |key, out| {
            gift64::encrypt_blocks(key, line.field(b"input").bytes(), out)
        })),
        "gift64_decrypt_blocks" => Some(changed(line, |key, out| {
            gift64::decrypt_blocks(key, line.field(b"input").bytes(), out)
        })),
        _ => None,
    }
}
