// Writing an image: its header, and its sessions behind it.
ghost use Rattle.std.specs.Prelude.{◌≡◌, ◌++◌, ◌≤◌, length, drop};
ghost use Rattle.meaning.specs.Records.{head_of as head_by};
ghost use Rattle.meaning.specs.Image.{session_bytes, header_bytes};
ghost use Rattle.image.specs.Parts.{image_length, one_session};

use crate::reading::Header;

// The mark, and a kind behind it: the byte itself, as it is written and compared.
pub fn head_of(kind: u8) -> [u8; limits::SET_AT]
    ensures { result ≡ head_by kind }
{
    [limits::MARK_FIRST, limits::MARK_SECOND, kind]
}

fn bytes_of_header(h: Header) -> [u8; limits::HEADER]
    ensures { result ≡ header_bytes h.total h.gone h.carried }
{
    let mut out = [0u8; limits::HEADER];
    out[..limits::TOTAL_AT].copy_from_slice(&head_of(limits::HEADER_KIND));
    out[limits::TOTAL_AT..limits::GONE_AT].copy_from_slice(&h.total.to_le_bytes());
    out[limits::GONE_AT..limits::CARRIED_AT].copy_from_slice(&h.gone.to_le_bytes());
    out[limits::CARRIED_AT..].copy_from_slice(&h.carried.to_le_bytes());
    out
}

fn bytes_of_session(set: u32) -> [u8; limits::SESSION]
    ensures { result ≡ one_session set }
{
    let mut out = [0u8; limits::SESSION];
    out[..limits::SET_AT].copy_from_slice(&head_of(limits::SESSION_KIND));
    out[limits::SET_AT..].copy_from_slice(&set.to_le_bytes());
    out
}

// The image goes to the front of the buffer. Nothing behind it changes.
pub fn put(header: Header, sets: &[u32], out: &mut [u8])
    requires { image_length (length sets.now) ≤ length out.old }
    ensures { out.new ≡ (header_bytes header.total header.gone header.carried ++ session_bytes sets.now) ++ drop (image_length (length sets.now)) out.old }
{
    out[..limits::HEADER].copy_from_slice(&bytes_of_header(header));
    // Each part by its place: once the borrows of `chunks_exact_mut` end, a proof knows the buffer's length, and no longer its bytes.
    let mut at = limits::HEADER;
    for set in sets {
        out[at..at + limits::SESSION].copy_from_slice(&bytes_of_session(*set));
        at += limits::SESSION;
    }
}
