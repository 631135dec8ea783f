// Both ends, a frame and its reply at a time. Every second reply of 260 bytes is lost, and the wait for it ends.
use catalog::AnswerName;
use catalog::kind::Kind;
use frame::LAB;
use octets::refusal::Refusal;
use octets::wire::FRAME_MOST;
use octets::{Part, Step};
use progress::{Outcome, Request, ToolState};
use services::UnitState;
use std::io;

// Both states, the frame that is out, and whether the unit's next call is an even one, counted from 1.
#[derive(Drop)]
pub(crate) struct Session {
    unit: UnitState,
    tool: ToolState,
    out: [u8; FRAME_MOST],
    len: usize,
    even: bool,
}

impl Session {
    pub(crate) fn fresh() -> Session {
        Session {
            unit: services::state::fresh(Kind::Generation2Version2.into()),
            tool: progress::state::fresh(),
            out: [0; FRAME_MOST],
            len: 0,
            even: false,
        }
    }

    pub(crate) fn is_done(&self) -> bool {
        self.tool.outcome == Outcome::Done
    }

    // The bytes that the tool holds.
    pub(crate) fn held(&self) -> usize {
        self.tool.held as usize
    }

    // What a call of the tool hands back. Refused, its state stays and nothing is sent.
    fn take(&mut self, given: Result<Step<ToolState>, Refusal>) {
        let state = self.tool;
        let Step { state, len } = given.unwrap_or(Step { state, len: 0 });
        self.tool = state;
        self.len = len;
    }

    // The unit hears the frame that is out, and gives the length of its reply. Refused, its state stays and there is
    // none.
    fn hear(&mut self, store: &[u8], reply: &mut [u8]) -> usize {
        let state = self.unit;
        let len = self.len;
        let sent = Part { start: 0, len }.of(&self.out);
        let given = unit::call::step(LAB, state, store, sent, reply);
        let Step { state, len } = given.unwrap_or(Step { state, len: 0 });
        self.unit = state;
        len
    }

    // The frame that is out is heard by the unit and its reply by the tool, whose next frame takes its place.
    fn exchange(&mut self, rt: &impl Print, store: &[u8], room: &mut [u8]) -> io::Result<()> {
        let mut reply = [0; FRAME_MOST];
        let sent = self.len;
        let len = self.hear(store, &mut reply);
        print!(rt; ", out {sent}, back {len}")?;
        let given = if self.even && len == FRAME_MOST {
            print!(rt; " lost")?;
            tool::call::wait_ended(LAB, self.tool, room, &mut self.out)
        } else {
            let string = Part { start: 0, len }.of(&reply);
            tool::call::arrived(LAB, self.tool, string, room, &mut self.out)
        };
        self.take(given);
        self.even = !self.even;
        Ok(())
    }

    // One request, begun and carried on until it is done, in at most twenty exchanges.
    pub(crate) fn run(
        &mut self,
        rt: &impl Print,
        request: Request,
        name: AnswerName,
        store: &[u8],
        room: &mut [u8],
    ) -> io::Result<()> {
        let begun = tool::call::begin(LAB, self.tool, request, name, &mut self.out);
        self.take(begun);
        for _ in 0..20 {
            if self.is_done() {
                break;
            }
            self.exchange(rt, store, room)?;
        }
        Ok(())
    }
}
