// A port or a carrier, written into the bytes.
ghost use Rattle.std.specs.Prelude.{◌≡◌, ◌≤◌, ◌+◌, length, replicate};
ghost use Rattle.std.proofs.lemmas.List.Edits.{sets};
ghost use Rattle.image.specs.Image.{table, port_bytes, carrier_bytes, moved_up};

use crate::layout::*;
use records::carrier::Carrier;
use records::port::Port;

// The bytes b, from o on. Copied one by one: `copy_from_slice` needs memmove, which a board has not (tests/c/archive.sh).
pub fn put(m: &mut [u8], o: usize, b: &[u8])
    requires { o + length b.now ≤ length m.old }
    ensures { m.new ≡ sets m.old o b.now }
{
    for i in 0..b.len() {
        m[o + i] = b[i];
    }
}

// All bytes zero.
pub fn clear(m: &mut [u8])
    ensures { m.new ≡ replicate (length m.old) 0 }
{
    m.fill(0);
}

fn port_bytes(q: Port) -> [u8; PORT_BYTES]
    ensures { result ≡ port_bytes q }
{
    let mut b = [0; PORT_BYTES];
    put(&mut b, TIE_OFFSET, &q.tie.bytes);
    b[TRANSFER_OFFSET] = q.transfer;
    b[ACCESS_OFFSET] = q.access;
    b[RESERVED_OFFSET] = q.reserved;
    b[MOVEMENT_OFFSET] = q.movement;
    b[POD_OFFSET] = q.pod;
    b[TAG_OFFSET] = q.tag;
    b
}

#[tactic(auto, using(crate::proofs::Bytes::carrier_made), unfolding(crate::specs::Image::carrier_bytes))]
fn carrier_bytes(c: Carrier) -> [u8; CARRIER_BYTES]
    ensures { result ≡ carrier_bytes c }
{
    let mut b = [0; CARRIER_BYTES];
    put(&mut b, NAME_OFFSET, &c.name.bytes);
    put(&mut b, MAP_OFFSET, &c.map);
    b[PLACE_OFFSET] = c.place;
    b[SPOT_OFFSET] = c.spot;
    b[PORT_OFFSET] = c.port;
    b[OPENED_OFFSET] = c.opened;
    b[CANCELLED_OFFSET] = c.cancelled;
    b[CAMEOUT_OFFSET] = c.cameout;
    b[ID_OFFSET] = c.id;
    b[SLOT_OFFSET] = c.slot;
    b[ACCESSING_OFFSET] = c.accessing;
    b
}

// A port, a carrier: two calls each. A trait over what is stored would have more lines than it spares.
pub fn put_port(m: &mut [u8; TOOL_BYTES], o: usize, q: Port)
    requires { o + 22 ≤ 1891 }
    ensures m_after { m.new ≡ sets m.old o (port_bytes q) }
    ensures m_len { length m.old ≡ 1891 }
{
    put(m, o, &port_bytes(q));
}

pub fn put_carrier(m: &mut [u8; TOOL_BYTES], o: usize, c: Carrier)
    requires { o + 50 ≤ 1891 }
    ensures m_after { m.new ≡ sets m.old o (carrier_bytes c) }
    ensures m_len { length m.old ≡ 1891 }
{
    put(m, o, &carrier_bytes(c));
}

// The bytes after the record at o move up over it; the last record's stay. One by one, as `copy_within` needs memmove too.
pub fn move_up(m: &mut [u8], o: usize)
    requires m_len { length m.old ≡ 1891 }
    requires o_bound { o ≤ 1841 }
    ensures { m.new ≡ table 1891 (moved_up m.old o 1841) }
{
    for j in o..LAST_RECORD_START {
        m[j] = m[j + CARRIER_BYTES];
    }
}
