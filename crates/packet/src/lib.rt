// Ancillary packets, built.
#![tactic(auto)]

ghost use Rattle.std.specs.Prelude.{◌≡◌, ◌≤◌, length};
ghost use Rattle.parts.specs.Parts.{laid, laid_unless};
ghost use Rattle.refusal.specs.Refusal.{result_of};
ghost use Rattle.packet.specs.Build.{build_refusal, buildable, built, header_word, packet_of};

use refusal::Refusal;

// The word that carries a byte.
fn header(byte: u8) -> u16
    ensures { result ≡ header_word byte }
{
    let parity = u8::count_ones(byte) % 2;
    bits::nine(byte as u16 + parity as u16 * 256)
}

// Whether there is a packet of a DID and user words.
fn buildable(did: u8, user: &[u16]) -> bool
    ensures { result ≡ buildable did user.now }
{
    did != 0 && user.len() <= 255 && !parts::any_reserved(user)
}

// The refusal of a packet; 3, 6, 1.
fn build_refusal(did: u8, user: &[u16], room: usize) -> Result<(), Refusal>
    ensures { result ≡ result_of (build_refusal did user.now room) tt }
{
    if !bits::all_words(user) {
        return Err(Refusal::TooHigh);
    }
    if !buildable(did, user) {
        return Err(Refusal::NoPacket);
    }
    if room < user.len() + 7 {
        return Err(Refusal::NoRoom);
    }
    Ok(())
}

// Lays a packet at the start of a buffer; its checksum is that of its headers' and its user words' checksums.
fn lay_packet(out: &mut [u16], did: u8, sdid: u8, user: &[u16])
    requires { length user.now ≤ 255 }
    ensures { out.new ≡ laid 0 (packet_of did sdid user.now) out.old }
{
    let headers = [header(did), header(sdid), header(user.len() as u8)];
    let checksum = bits::nine(scan::checksum(&headers) + scan::checksum(user));
    parts::lay(out, 0, &[0x000, 0x3ff, 0x3ff]);
    parts::lay(out, 3, &headers);
    parts::lay(out, 6, user);
    bits::put(out, user.len() + 6, checksum);
}

// Builds a packet at the start of the output, and answers how many words it has; 3, 6, 1.
pub fn build(did: u8, sdid: u8, user: &[u16], out: &mut [u16]) -> Result<usize, Refusal>
    ensures answer { result ≡ built did user.now (length out.old) }
    ensures buffer { out.new ≡ laid_unless (build_refusal did user.now (length out.old)) (packet_of did sdid user.now) out.old }
{
    build_refusal(did, user, out.len())?;
    lay_packet(out, did, sdid, user);
    Ok(user.len() + 7)
}
