// A whole download in Rattle alone: both ends' calls on their own states, without packing and without C.
#![tactic(auto)]

mod ends;
mod sample;

use catalog::AnswerName;
use ends::Session;
use octets::Part;
use progress::Request;
use std::io;

// The name beside a fixed request, which asks for no answer.
const FIXED: AnswerName = AnswerName { trep: 0, day: 0 };

// The requests of a download, in order; the fourth to the sixth are transfers, the last of them activities by noon of
// their day.
const REQUESTS: [(Request, AnswerName); 8] = [
    (Request::Start, FIXED),
    (Request::Session, FIXED),
    (Request::Upload, FIXED),
    (Request::Transfer, AnswerName { trep: 0, day: 0 }),
    (Request::Transfer, AnswerName { trep: 0x31, day: 0 }),
    (
        Request::Transfer,
        AnswerName {
            trep: 0x32,
            day: 129600,
        },
    ),
    (Request::Exit, FIXED),
    (Request::Stop, FIXED),
];

// Whether the request is done and what the tool holds is the answer of the store; a fixed request has none.
fn compared(
    rt: &impl Print,
    session: &Session,
    name: AnswerName,
    store: &[u8],
    room: &[u8],
) -> io::Result<()> {
    let len = session.held();
    let kept = Part { start: 0, len }.of(room);
    if session.is_done() {
        print!(rt; ": done, held {len}")?;
    }
    if 0 < len && kept == store::read::lookup(store, name) {
        print!(rt; ", the answer of the store")?;
    }
    println!(rt)
}

fn download(rt: &impl Print, store: &[u8], room: &mut [u8]) -> io::Result<()> {
    let mut session = Session::fresh();
    for (k, (request, name)) in REQUESTS.into_iter().enumerate() {
        print!(rt; "request {k}")?;
        if name.day != 0 {
            print!(rt; " by second {}", name.day)?;
        }
        session.run(rt, request, name, store, room)?;
        compared(rt, &session, name, store, room)?;
    }
    Ok(())
}

fn main(rt: HostRuntime) -> io::Result<()> {
    let mut store = [0; 4096];
    let mut room = [0; 4096];
    sample::fill(&mut store);
    download(&rt, &store, &mut room)
}
