// The request machine: it serves a client's requests by acts on the device, one act at a time.
ghost use Rattle.std.specs.Prelude.{◌≡◌, ℕ, ◌%◌, ◌≤◌, true, List, ◌++◌, length, take, drop};
ghost use Rattle.pages.specs.Engine.{Housed};
ghost use Rattle.pages.specs.Machine.{asked, place, first_serving, first_act, buffer_words, row_bytes, begun, Moves, taken, looked, go_on, page_came, laid_on, act_done, served, ServeSays, serve_fits};
ghost use Rattle.pages.specs.Told.{ActTold, event_meant};
ghost use Rattle.pages.specs.Words.{over, page_words};

use crate::told::{Event, Told};
use crate::words::{page_words, put_bytes, put_head, put_words};

// The words of the buffer, at the front of a client's memory.
pub const BUFFER: usize = 41_088;

// The most bytes of a row that is shown.
pub const ROW: usize = 131_072;

// What a client may ask for.
#[derive(Clone, Copy, Debug, PartialEq, Eq)]
pub enum Request {
    // The head's words.
    Recall,
    // So many words of the tape, from a word on.
    Look { at: u64, words: u64 },
    // The object that starts at a word: its first word says how many words it has; at most so many are wanted.
    Object { at: u64, limit: u64 },
    // So many pages of the buffer onto the tape, from a virtual page on.
    Lay { page: u64, pages: u64 },
    // The first words of the buffer are the head.
    Publish,
    // A row of so many bytes of the buffer.
    Show { bytes: u64 },
    // The command has ended and is done.
    Done,
    // The command has ended and is refused. 0 is no refusal: it is told where nothing fits.
    Refuse { number: u64 },
}

// What is being served.
#[derive(Clone, Copy, Debug, PartialEq, Eq)]
pub enum Serving {
    Idle,
    Recalling,
    // From a word of the tape, so many words are still wanted, behind so many in the buffer.
    Looking { at: u64, left: u64, got: u64 },
    Opening { at: u64, limit: u64 },
    // This virtual page is being written, so many are left, the next from a word of the buffer.
    Laying { page: u64, left: u64, from: u64 },
    // Before the head is written, while it is written, after it.
    Flushing,
    Heading,
    Settling,
    Showing,
}

// The machine's registers: the number of pages in the ring, and what is being served.
#[derive(Clone, Copy, Debug, PartialEq, Eq)]
pub struct Machine {
    pub ring: u64,
    pub serving: Serving,
}

// A program over the tape. Memory begins with the buffer, where what is asked for comes, and from where pages are laid and rows are shown.
pub trait Client {
    // What it does, and the cells that hold it.
    ghost housed: { Housed Self };

    // The client that its cells hold, and the cells that hold it.
    fn load(cells: &[u64; 120]) -> Self
        ensures { result ≡ housed.load cells.now };

    fn save(&self) -> [u64; 120]
        ensures { result ≡ housed.save self.now };

    // Power comes.
    fn wake(&mut self, house: u64, houses: u64, pages: u64)
        ensures { self.new ≡ housed.program.wakes self.old house houses pages };

    // A command is said.
    fn hear(&mut self, memory: &mut [u64], text: &[u8]) -> Request
        ensures { asked self.new memory.new result ≡ housed.program.hears self.old memory.old text.now };

    // What was asked for is done.
    fn resume(&mut self, memory: &mut [u64]) -> Request
        ensures { asked self.new memory.new result ≡ housed.program.resumes self.old memory.old };
}

// The page of a virtual page.
fn place_of(ring: u64, page: u64) -> u64
    ensures { result ≡ place ring page }
{
    if ring == 0 { 1 } else { 1 + page % ring }
}

// What is served from a request's first act on.
fn serving_of(request: Request) -> Serving
    ensures { result ≡ first_serving request }
{
    match request {
        Request::Recall => Serving::Recalling,
        Request::Look { at, words } => Serving::Looking {
            at,
            left: words.min(BUFFER as u64),
            got: 0,
        },
        Request::Object { at, limit } => Serving::Opening { at, limit },
        Request::Lay { page, pages } => Serving::Laying {
            page,
            left: pages.saturating_sub(1).min(641),
            from: 64,
        },
        Request::Publish => Serving::Flushing,
        Request::Show { .. } => Serving::Showing,
        Request::Done => Serving::Idle,
        Request::Refuse { .. } => Serving::Idle,
    }
}

// A request's first act.
fn act_of(ring: u64, memory: &[u64], request: Request, out: &mut [u8]) -> Told
    requires { (buffer_words ≤ length memory.now) × (row_bytes ≤ length out.old) }
    ensures { ActTold (first_act ring memory.now request) result out.old out.new }
{
    match request {
        Request::Recall => Told::Read(0),
        Request::Look { at, .. } => Told::Read(place_of(ring, at / 64)),
        Request::Object { at, .. } => Told::Read(place_of(ring, at / 64)),
        Request::Lay { page, .. } => {
            put_words(&memory[0..64], out);
            Told::Write(place_of(ring, page))
        }
        Request::Publish => Told::Flush,
        Request::Show { bytes } => {
            let bytes = bytes.min(ROW as u64);
            put_bytes(&memory[0..16_384], bytes as usize, out);
            Told::Shows(bytes)
        }
        Request::Done => Told::Done,
        Request::Refuse { number } => Told::No(number),
    }
}

// Words of a page into the buffer, as far as they are wanted and there is room: how many.
fn take_words(at: u64, left: u64, got: u64, words: &[u64; 64], memory: &mut [u64]) -> u64
    requires { buffer_words ≤ length memory.old }
    ensures many { result ≡ taken at left got }
    ensures memory { memory.new ≡ over got (take (taken at left got) (drop (at % 64) words.now)) memory.old }
{
    let from = at % 64;
    let many = (64 - from).min(left.min((BUFFER as u64).saturating_sub(got)));
    if many > 0 {
        let to = got + many;
        let end = from + many;
        memory[got as usize..to as usize].copy_from_slice(&words[from as usize..end as usize]);
    }
    many
}

// As it stands: the client, its memory and the row of bytes go through these methods as loans. A machine that owns its client cannot serve one that is only lent.
// A struct around what is lent would owe in each method that it stays the same loan, in place of the clause on its length that it saves; and an array in place of
// the row is a front of it, of which the clauses on the whole row would have to be shown again.
impl Machine {
    // A request is served from here on.
    fn begin(&mut self, memory: &[u64], request: Request, out: &mut [u8]) -> Told
        requires { (buffer_words ≤ length memory.now) × (row_bytes ≤ length out.old) }
        ensures machine { self.new.serving ≡ first_serving request }
        ensures ring { self.new.ring ≡ self.old.ring }
        ensures told { ActTold (first_act self.old.ring memory.now request) result out.old out.new }
    {
        self.serving = serving_of(request);
        act_of(self.ring, memory, request, out)
    }

    // Nothing is served any more.
    fn give_up(&mut self) -> Told
        ensures serving { self.new.serving ≡ Serving.Idle }
        ensures ring { self.new.ring ≡ self.old.ring }
        ensures told { result ≡ Told.Done }
    {
        self.serving = Serving::Idle;
        Told::Done
    }

    // What was asked for is done: the client is asked again.
    fn ask<C: Client>(&mut self, client: &mut C, memory: &mut [u64], out: &mut [u8]) -> Told
        requires { (buffer_words ≤ length memory.old) × (row_bytes ≤ length out.old) }
        ensures { Moves (begun self.old.ring (C.housed.program.resumes client.old memory.old)) self.new client.new memory.new result out.old out.new }
    {
        let request = client.resume(memory);
        self.begin(memory, request, out)
    }

    // A page of what is looked at came.
    fn look_on<C: Client>(
        &mut self,
        client: &mut C,
        at: u64,
        left: u64,
        got: u64,
        words: &[u64; 64],
        memory: &mut [u64],
        out: &mut [u8],
    ) -> Told
        requires { (buffer_words ≤ length memory.old) × (row_bytes ≤ length out.old) }
        ensures { Moves (go_on C.housed.program self.old.ring client.old (looked at left got words.now memory.old)) self.new client.new memory.new result out.old out.new }
    {
        let many = take_words(at, left, got, words, memory);
        if left <= many {
            return self.ask(client, memory, out);
        }
        let at = at.saturating_add(many);
        self.serving = Serving::Looking {
            at,
            left: left - many,
            got: got + many,
        };
        Told::Read(place_of(self.ring, at / 64))
    }

    // The page came that was asked for.
    fn page_came<C: Client>(
        &mut self,
        client: &mut C,
        page: &[u8],
        memory: &mut [u64],
        out: &mut [u8],
    ) -> Told
        requires { (buffer_words ≤ length memory.old) × (row_bytes ≤ length out.old) }
        ensures { Moves (page_came C.housed.program self.old.ring client.old memory.old (page_words page.now) self.old.serving) self.new client.new memory.new result out.old out.new }
    {
        let words = page_words(page);
        match self.serving {
            Serving::Recalling => {
                memory[0..32].copy_from_slice(&words[0..32]);
                self.ask(client, memory, out)
            }
            Serving::Looking { at, left, got } => self.look_on(
                client, at, left, got, &words, memory, out,
            ),
            Serving::Opening { at, limit } => {
                let header = words[(at % 64) as usize];
                let wanted = (header % 4_294_967_296)
                    .min(limit)
                    .min(BUFFER as u64)
                    .max(1);
                self.look_on(client, at, wanted, 0, &words, memory, out)
            }
            _ => self.give_up(),
        }
    }

    // A page of the buffer was laid: the next one, or the client is asked again.
    fn lay_on<C: Client>(
        &mut self,
        client: &mut C,
        page: u64,
        left: u64,
        from: u64,
        memory: &mut [u64],
        out: &mut [u8],
    ) -> Told
        requires { (buffer_words ≤ length memory.old) × (row_bytes ≤ length out.old) }
        ensures { Moves (laid_on C.housed.program self.old.ring client.old memory.old page left from) self.new client.new memory.new result out.old out.new }
    {
        if left == 0 || from > 41_024 {
            return self.ask(client, memory, out);
        }
        let next = page.saturating_add(1);
        put_words(&memory[from as usize..from as usize + 64], out);
        self.serving = Serving::Laying {
            page: next,
            left: left - 1,
            from: from + 64,
        };
        Told::Write(place_of(self.ring, next))
    }

    // The last act is done.
    fn act_done<C: Client>(&mut self, client: &mut C, memory: &mut [u64], out: &mut [u8]) -> Told
        requires { (buffer_words ≤ length memory.old) × (row_bytes ≤ length out.old) }
        ensures { Moves (act_done C.housed.program self.old.ring client.old memory.old self.old.serving) self.new client.new memory.new result out.old out.new }
    {
        match self.serving {
            Serving::Laying { page, left, from } => self.lay_on(
                client, page, left, from, memory, out,
            ),
            Serving::Flushing => {
                put_head(&memory[0..32], out);
                self.serving = Serving::Heading;
                Told::Write(0)
            }
            Serving::Heading => {
                self.serving = Serving::Settling;
                Told::Flush
            }
            Serving::Settling => self.ask(client, memory, out),
            Serving::Showing => self.ask(client, memory, out),
            _ => self.give_up(),
        }
    }

    fn take_in<C: Client>(
        &mut self,
        client: &mut C,
        memory: &mut [u64],
        event: Event,
        out: &mut [u8],
    ) -> Told
        requires { (buffer_words ≤ length memory.old) × (row_bytes ≤ length out.old) }
        ensures { Moves (served C.housed.program self.old client.old memory.old (event_meant event.entry)) self.new client.new memory.new result out.old out.new }
    {
        match event {
            Event::On {
                house,
                houses,
                pages,
            } => {
                client.wake(house, houses, pages);
                self.ring = pages.saturating_sub(1).max(1);
                self.give_up()
            }
            Event::Said(text) => {
                let request = client.hear(memory, text);
                self.begin(memory, request, out)
            }
            Event::Page(page) => self.page_came(client, page, memory, out),
            Event::Next => self.act_done(client, memory, out),
            Event::Heard(_) => self.give_up(),
            Event::Lost => self.give_up(),
        }
    }
}

// One step of a machine and a client that are lent: what comes is taken in, and one act is told.
pub fn serve<C: Client>(
    machine: &mut Machine,
    client: &mut C,
    memory: &mut [u64],
    event: Event,
    out: &mut [u8],
) -> Told
    ensures { ServeSays (serve_fits memory.old out.old) C.housed.program machine.old client.old memory.old (event_meant event.entry) out.old result machine.new client.new memory.new out.new }
{
    if memory.len() < BUFFER || out.len() < ROW {
        return Told::No(0);
    }
    machine.take_in(client, memory, event, out)
}

// A client, and the machine that serves it. Its memory and the row of bytes are lent to each step.
#[derive(Drop)]
pub struct Server<C> {
    pub machine: Machine,
    pub client: C,
}

impl<C: Client> Server<C> {
    // One step of its own machine and client.
    pub fn serve(&mut self, memory: &mut [u64], event: Event, out: &mut [u8]) -> Told
        ensures { ServeSays (serve_fits memory.old out.old) C.housed.program self.old.machine self.old.client memory.old (event_meant event.entry) out.old result self.new.machine self.new.client memory.new out.new }
    {
        serve(&mut self.machine, &mut self.client, memory, event, out)
    }
}
