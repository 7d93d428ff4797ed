ghost use Rattle.std.specs.Prelude.{◌≡◌, ◌≤◌, length};
ghost use Rattle.std.specs.List.{list_all, prefix_len};
ghost use Rattle.std.specs.Option.{option_map};
ghost use Rattle.lp_token.specs.Tokens.{is_letter, is_name_byte};
ghost use Rattle.lp_plain_upf.specs.Names.{begins_with_letter};
ghost use Rattle.lp_plain_upf.specs.Names.{is_free_name};
ghost use Rattle.lp_plain_upf.specs.Reading.{name_at};

fn is_letter(b: u8) -> bool
    ensures { result ≡ is_letter b }
{
    matches!(b, b'a'..=b'z' | b'A'..=b'Z')
}

fn is_name_byte(b: u8) -> bool
    ensures { result ≡ is_name_byte b }
{
    is_letter(b) || b.is_ascii_digit() || b == b'_'
}

fn begins_with_letter(name: &[u8]) -> bool
    ensures { result ≡ begins_with_letter name.now }
{
    match name {
        [] => false,
        [first, ..] => is_letter(*first),
    }
}

fn has_name_bytes(name: &[u8]) -> bool
    ensures { result ≡ list_all is_name_byte name.now }
{
    name.iter().all(|b| is_name_byte(*b))
}

// A name that is simple and none of the tool's own.
fn is_free_name(name: &[u8]) -> bool
    ensures { result ≡ is_free_name name.now }
{
    begins_with_letter(name) && has_name_bytes(name) && !name.starts_with(b"lp_")
}

// How many letters, digits and _ stand at the front.
fn name_len(bytes: &[u8]) -> usize
    ensures len { result ≡ prefix_len is_name_byte bytes.now }
    ensures within { result ≤ length bytes.now }
{
    for (i, b) in bytes.iter().enumerate() {
        if !is_name_byte(*b) {
            return i;
        }
    }
    bytes.len()
}

/// The name at the front and what stands behind it.
#[tactic(auto, unfolding(crate::specs::Reading::name_at))]
pub fn name(bytes: &[u8]) -> Option<(&[u8], &[u8])>
    ensures { option_map (λ x. (x.0.now, x.1.now)) result ≡ name_at bytes.now }
{
    let (name, rest) = bytes.split_at(name_len(bytes));
    if is_free_name(name) {
        Some((name, rest))
    } else {
        None
    }
}
