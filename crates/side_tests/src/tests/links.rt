use super::{Device, cut, list, only, plays, said};
use side_base::{Blob, Fields, LinkRequest, Method, NoMemory, Response, Text};
use side_memory::{LinkAnswers, MemoryLink};
use side_world::{Link, LinkErr};
use std::alloc::Global;
use std::test::Fail;

const TARGET: &[u8] = b"/orders";

fn request(alloc: Global) -> Result<LinkRequest, NoMemory> {
    Ok(LinkRequest {
        host: Text::from_static(alloc, "127.0.0.1"),
        port: 8080,
        method: Method::Post,
        target: Blob::from_bytes(alloc, TARGET)?,
        fields: Fields::new(alloc),
        body: Blob::new(alloc),
    })
}

fn response(alloc: Global, letter: u8) -> Result<Response, NoMemory> {
    let body = Blob::from_bytes(alloc, &[letter])?;
    Ok(Response {
        status: (letter as u16 % 16) * 100,
        fields: Fields::new(alloc),
        body,
    })
}

// The answer that a letter names: a digit is a status in hundreds, `x` an expiry, `m` want of memory, `f` a failure.
fn answer_of(alloc: Global, letter: u8) -> Result<Result<Response, LinkErr>, NoMemory> {
    match letter {
        b'x' => Ok(Err(LinkErr::Expired)),
        b'm' => Ok(Err(LinkErr::NoMemory)),
        b'f' => Ok(Err(LinkErr::Failed)),
        _ => Ok(Ok(response(alloc, letter)?)),
    }
}

// The answers that a text names.
fn answers(alloc: Global, text: &str) -> Result<LinkAnswers, NoMemory> {
    let mut answers = LinkAnswers::new(alloc);
    for letter in text.bytes() {
        answers.push(answer_of(alloc, letter)?)?;
    }
    Ok(answers)
}

// The letter of an answer, as above.
fn letter(answer: &Result<Response, LinkErr>) -> u8 {
    match answer {
        Ok(response) => only(response.body.bytes()),
        Err(LinkErr::Expired) => b'x',
        Err(LinkErr::NoMemory) => b'm',
        Err(LinkErr::Failed) => b'f',
    }
}

// The letter of what a call answers.
fn call(link: &mut MemoryLink, request: &LinkRequest) -> u8 {
    letter(&link.call(request, 100))
}

// The letters of what six calls of a request answer.
fn calls_of(alloc: Global, link: &mut MemoryLink, request: &LinkRequest) -> Result<Blob, NoMemory> {
    let mut letters = Blob::new(alloc);
    for _ in 0..6 {
        letters.push_byte(call(link, request))?;
    }
    Ok(letters)
}

fn six_calls(alloc: Global, link: &mut MemoryLink) -> Result<Blob, NoMemory> {
    let request = request(alloc)?;
    calls_of(alloc, link, &request)
}

// The letters of the calls that a link tells.
fn told(alloc: Global, link: &MemoryLink) -> Result<Blob, NoMemory> {
    let mut letters = Blob::new(alloc);
    if let Some(calls) = link.calls() {
        for call in calls {
            if call.request.target.bytes() == TARGET && call.limit_ms == 100 {
                letters.push_byte(letter(&call.answer))?;
            }
        }
    }
    Ok(letters)
}

// `new` begins one with these answers, which fails at the listed calls.
impl Device for MemoryLink {
    fn begin(alloc: Global, given: &str) -> Result<MemoryLink, NoMemory> {
        let (text, failing) = cut(given);
        let failing = list(alloc, failing)?;
        Ok(MemoryLink::new(alloc, answers(alloc, text)?, failing))
    }

    fn answer(&mut self, alloc: Global, name: &str, _: &str) -> Result<Blob, NoMemory> {
        match name {
            "call" => six_calls(alloc, self),
            "told" => told(alloc, self),
            _ => said(alloc, "unknown"),
        }
    }
}

// A link answers its list, fails at the listed calls and past its end, and tells each call.
const LINKS: &str = "\
new 234
call=234fff
told=234fff
new 2x5m3
call=2x5m3f
told=2x5m3f
new 23 02
call=f2f3ff
told=f2f3ff
new f2 5
call=f2ffff
told=f2ffff
new 1623
call=ff23ff
told=ff23ff";

#[test]
fn a_link_answers_its_list(rt: HostRuntime) -> Result<(), Fail> {
    Ok(plays::<MemoryLink, _>(&rt, rt.alloc(), LINKS)?)
}
