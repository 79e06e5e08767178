// The fields of a message: numbers read from bytes, and a tag written into a part of a frame that is lent.
ghost use Rattle.std.specs.Prelude.{◌≡◌, ◌+◌, ◌≤◌, length, take};
ghost use Rattle.std.proofs.lemmas.List.Edits.{sets};
ghost use Rattle.lists.specs.Bytes.{field};
ghost use Rattle.tag.specs.Tags.{tag_length, tag_of};

pub(crate) fn u16_at(s: &[u8], at: usize) -> u16
    requires { at + 2 ≤ length s.now }
    ensures { result ≡ field s.now at 2 }
{
    lists::u16_of(s[at], s[at + 1])
}

pub(crate) fn u32_at(s: &[u8], at: usize) -> u32
    requires { at + 4 ≤ length s.now }
    ensures { result ≡ field s.now at 4 }
{
    lists::u32_of(s[at], s[at + 1], s[at + 2], s[at + 3])
}

// The tag of the first n bytes, put after them.
pub(crate) fn seal(part: &mut [u8], n: usize, key: &[u8])
    requires { n + tag_length ≤ length part.old }
    ensures { part.new
        ≡ sets part.old n (tag_of key.now (take n part.old)) }
{
    let t = tag::tag(key, &part[..n]);
    part[n..n + tag::LENGTH].copy_from_slice(&t);
}
