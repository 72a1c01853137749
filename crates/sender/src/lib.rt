// The sender: the k-th frame of a message, written to the front of a buffer. Document 01, "Sender".
// It keeps no state: whoever sends asks for frame 0, 1, 2 .. until the answer is that there is none (26).
#![tactic(auto)]

ghost use Rattle.std.specs.Prelude.{◌≡◌, false, ◌≤◌, ◌++◌, IfErr, length};
ghost use Rattle.numbers.specs.Numbers.{bytes_be};
ghost use Rattle.frame.specs.Rules.{fault_of};
ghost use Rattle.figures.specs.Refusal.{refusal_in};
ghost use Rattle.frame.specs.Write.{wrote, put_of};
ghost use Rattle.sender.specs.Sender.{Ready, unready, chunk_fits, fits_one, count_of, header_for, plan, bytes_of, next_plan, send_of};

use figures::frame_type;
use figures::refusal::{self, Refusal};
use frame::{Header, MessageId, ServiceType, SessionId};

// What all frames of a message share. The chunk is the largest payload of one frame.
#[derive(Clone, Copy, PartialEq, Eq)]
pub struct Outgoing {
    pub version: u8,
    pub service: ServiceType,
    pub session: SessionId,
    pub message: MessageId,
    pub chunk: u32,
}

// An `Outgoing` that refusals 1, 3 and 10 let pass.
#[derive(Clone, Copy)]
struct Sendable {
    outgoing: Outgoing,
    ghost ready: { Ready outgoing },
}

#[tactic(auto, unfolding(crate::specs::Sender::chunk_fits))]
fn chunk_fits(version: u8, chunk: u32) -> bool
    ensures { result ≡ chunk_fits version chunk }
{
    (1..=frame::largest_size(version)).contains(&chunk)
}

impl Outgoing {
    // 1, 3 and 10, in this order. No `Sendable` is handed out in the `Ok`: it is made where it is used, so that the compiler keeps its numbers where they are.
    fn checked(self) -> Result<(), Refusal>
        ensures lowest { refusal_in result ≡ unready self }
        ensures numbered { IfErr result (λ number. 1 ≤ number) }
    {
        if !frame::known_version(self.version) {
            return Err(refusal::BAD_VERSION);
        }
        if !frame::listed_service(self.service) {
            return Err(refusal::BAD_SERVICE);
        }
        if !chunk_fits(self.version, self.chunk) {
            return Err(refusal::BAD_SETTINGS);
        }
        Ok(())
    }

    // One frame with the data size of its payload.
    #[tactic(auto, using(frame::proofs::Laws::write_puts))]
    fn put(self, kind: u8, info: u8, payload: &[u8], out: &mut [u8]) -> Result<usize, Refusal>
        requires { fault_of (header_for self kind info (length payload.now)) ≡ 0 }
        ensures { wrote result out.new ≡ put_of (bytes_of (plan self kind info payload.now)) out.old }
    {
        let header = Header {
            version: self.version,
            flag: false,
            kind,
            service: self.service,
            info,
            session: self.session,
            size: payload.len() as u32,
            message: self.message,
        };
        frame::write(header, payload, out)
    }
}

impl Sendable {
    // How many frames follow the First Frame.
    fn frame_count(self, message: &[u8]) -> usize
        ensures { result ≡ count_of self.outgoing message.now }
    {
        message.len().div_ceil(self.outgoing.chunk as usize)
    }

    fn put_first(self, total: u32, count: u32, out: &mut [u8]) -> Result<usize, Refusal>
        ensures { wrote result out.new ≡ put_of (bytes_of (plan self.outgoing 2 0 (bytes_be 4 total ++ bytes_be 4 count))) out.old }
    {
        let mut totals = [0u8; 8];
        numbers::put_be4(&mut totals, 0, total);
        numbers::put_be4(&mut totals, 4, count);
        self.outgoing.put(frame_type::FIRST, 0, &totals, out)
    }

    fn put_next(
        self,
        place: u32,
        count: u32,
        message: &[u8],
        out: &mut [u8],
    ) -> Result<usize, Refusal>
        requires count_value { (count ≡ count_of self.outgoing message.now) × (count ≤ 65536) }
        requires le_place { (1 ≤ place) × (place ≤ count) × (1 ≤ length message.now) }
        ensures { wrote result out.new ≡ put_of (bytes_of (next_plan self.outgoing message.now place)) out.old }
    {
        let number = frame::frame_number(place as usize, count as usize);
        let chunk = self.outgoing.chunk as usize;
        let start = (place - 1) as usize * chunk;
        let end = (start + chunk).min(message.len());
        self.outgoing.put(
            frame_type::CONSECUTIVE,
            number as u8,
            &message[start..end],
            out,
        )
    }

    // More than one chunk: 18, 26, then the First Frame or a consecutive one.
    #[tactic(auto, using(crate::proofs::Laws::several), unfolding(crate::specs::Sender::send_of, crate::specs::Sender::last_place, crate::specs::Sender::frame_at))]
    fn send_several(self, k: u32, message: &[u8], out: &mut [u8]) -> Result<usize, Refusal>
        requires { fits_one self.outgoing message.now ≡ false }
        ensures { wrote result out.new ≡ send_of self.outgoing k message.now out.old }
    {
        let count = self.frame_count(message);
        if !frame::totals_fit(message.len(), count) {
            return Err(refusal::BAD_TOTALS);
        }
        if count < k as usize {
            return Err(refusal::NO_SUCH_FRAME);
        }
        if k == 0 {
            return self.put_first(message.len() as u32, count as u32, out);
        }
        self.put_next(k, count as u32, message, out)
    }
}

// The k-th frame of `message`, counted from 0.
#[tactic(auto, using(crate::proofs::Laws::single), unfolding(crate::specs::Sender::send_of, crate::specs::Sender::fits_one))]
pub fn send(outgoing: Outgoing, k: u32, message: &[u8], out: &mut [u8]) -> Result<usize, Refusal>
    ensures { wrote result out.new ≡ send_of outgoing k message.now out.old }
{
    outgoing.checked()?;
    let sendable = Sendable { outgoing };
    if (outgoing.chunk as usize) < message.len() {
        return sendable.send_several(k, message, out);
    }
    if 0 < k {
        return Err(refusal::NO_SUCH_FRAME);
    }
    outgoing.put(frame_type::SINGLE, 0, message, out)
}
