//! What a Sentinel's threads have to tell the subscribers of its port, until the threads of the port take it.

ghost use Rattle.std.specs.Prelude.{◌≡◌, ◌≤◌, ◌<◌, ◌+◌, ◌⊎◌, ◌++◌, ◌∷◌, [], IfOk, IfSome, length, vec_len};
ghost use Rattle.sentinel_runtime.specs.declared.news.News.{News};
ghost use Rattle.sentinel_runtime.specs.declared.news.TheConstants.{EVENTS_MAX, WAITING_MAX};

use crate::running_sentinel::Which;
use crate::switches::Switch;
use ballot_law::Text;
use mio::Waker;
use pubsub::{Channel, Event};
use std::alloc::{AllocError, Global};
use std::fmt::Display;
use std::mem;
use std::sync::atomic::{AtomicBool, Ordering};
use std::sync::{Mutex, Wait};

/// How many new addresses wait at most for a thread of a port that takes none; a further one is lost.
pub const WAITING_MAX: usize = 1024;

/// How many other events wait at most for such a thread; a further one takes the place of the oldest, which is lost.
pub const EVENTS_MAX: usize = 256;

/// What a port tells its subscribers.
#[derive(Drop)]
pub enum News<J: Which> {
    /// A master's new address.
    Switch(Switch<J>),
    /// Another event.
    Event(Event),
}

/// What waits for one thread, in the order in which it came, and how many events are among it.
#[derive(Drop)]
struct Waiting<J: Which> {
    news: Vec<News<J>>,
    events: usize,
    ghost few: { events ≤ EVENTS_MAX },
    ghost all: { vec_len news ≤ WAITING_MAX + events },
}

/// Where the first event stands, where there is one.
fn oldest_event<J: Which>(news: &[News<J>]) -> Option<usize>
    ensures { IfSome result (λ place. place < length news.now) }
{
    for place in 0..news.len() {
        if let News::Event(_) = &news[place] {
            return Some(place);
        }
    }
    None
}

impl<J: Which> Waiting<J> {
    /// Nothing waits.
    fn new(alloc: Global) -> Waiting<J>
        ensures { result.news.items ≡ [] }
    {
        Waiting {
            news: Vec::new(alloc),
            events: 0,
        }
    }

    /// Puts a new address after what waits. It is lost where as many wait as may, and where there is no memory.
    fn put_switch(&mut self, switch: Switch<J>)
        ensures { (self.new.news.items ≡ self.old.news.items) ⊎ (self.new.news.items ≡ self.old.news.items ++ News.Switch switch ∷ []) }
    {
        if self.news.len() < WAITING_MAX + self.events {
            drop(self.news.push(News::Switch(switch)));
        }
    }

    /// Drops the oldest event where as many wait as may.
    fn make_room(&mut self) {
        if self.events < EVENTS_MAX {
            return;
        }
        if let Some(place) = oldest_event(self.news.as_slice()) {
            drop(self.news.remove(place));
            self.events -= 1;
        }
    }

    /// Puts an event after what waits, of which the oldest event is dropped where as many wait as may. It is lost where
    /// there is no memory.
    fn put_event(&mut self, event: Event) {
        self.make_room();
        if self.events < EVENTS_MAX && self.news.push(News::Event(event)).is_ok() {
            self.events += 1;
        }
    }

    /// What waits.
    fn into_news(self) -> Vec<News<J>>
        ensures same { result ≡ self.news }
        ensures few { length result.items ≤ WAITING_MAX + EVENTS_MAX }
    {
        let Waiting { news, events: _ } = self;
        news
    }
}

/// What waits for one thread, and what wakes it when more comes, where it gave something that does.
#[derive(Drop)]
struct Mailbox<J: Which> {
    waiting: Mutex<Waiting<J>>,
    waker: Mutex<Option<Waker>>,
}

impl<J: Which> Mailbox<J> {
    /// Nothing waits, and nobody is woken.
    fn new(alloc: Global) -> Mailbox<J> {
        Mailbox {
            waiting: Mutex::new(Waiting::new(alloc)),
            waker: Mutex::new(None),
        }
    }

    /// Wakes the thread. One that the system doesn't wake looks for news by itself, a little later.
    fn wake<R: Wait>(&self, rt: &R) {
        if let Some(waker) = &*self.waker.lock(rt) {
            drop(waker.wake());
        }
    }

    /// Puts a new address after what waits.
    fn put_switch<R: Wait>(&self, rt: &R, switch: Switch<J>) {
        self.waiting.lock(rt).put_switch(switch);
        self.wake(rt);
    }

    /// Puts an event after what waits.
    fn put_event<R: Wait>(&self, rt: &R, event: Event) {
        self.waiting.lock(rt).put_event(event);
        self.wake(rt);
    }
}

/// What the threads of a Sentinel have to tell: each thread of its port has a list of its own, until it takes it.
/// `tells_events` is whether the port tells its subscribers of other events than new addresses.
#[derive(Drop)]
pub(crate) struct NewsLists<J: Which> {
    lists: Vec<Mailbox<J>>,
    tells_events: AtomicBool,
    alloc: Global,
}

impl<J: Which> NewsLists<J> {
    /// Nothing waits for any of so many threads, and no events are told.
    pub(crate) fn new(alloc: Global, threads: u16) -> Result<NewsLists<J>, AllocError>
        ensures { IfOk result (λ news. length news.lists.items ≡ threads) }
    {
        let mut lists = Vec::new(alloc);
        while lists.len() < threads as usize {
            lists.push(Mailbox::new(alloc))?;
        }
        Ok(NewsLists {
            lists,
            tells_events: AtomicBool::new(false),
            alloc,
        })
    }

    /// From now on events are told.
    pub(crate) fn tell_events(&self) {
        self.tells_events.store(true, Ordering::SeqCst);
    }

    /// Whether events are told.
    pub(crate) fn tells_events(&self) -> bool {
        self.tells_events.load(Ordering::SeqCst)
    }

    /// From now on this wakes the thread with this number when there is something to tell.
    pub(crate) fn wake_by<R: Wait>(&self, rt: &R, thread: u16, waker: Waker) {
        if let Some(list) = self.lists.get(thread as usize) {
            *list.waker.lock(rt) = Some(waker);
        }
    }

    /// Adds a new address for each thread.
    pub(crate) fn add_switch<R: Wait>(&self, rt: &R, switch: Switch<J>) {
        for list in &self.lists {
            list.put_switch(rt, switch);
        }
    }

    /// Adds an event with this text for each thread, where events are told.
    pub(crate) fn add_event<T: Display, R: Wait>(&self, rt: &R, channel: Channel, text: &T) {
        if !self.tells_events() {
            return;
        }
        for list in &self.lists {
            if let Ok(text) = format!(in self.alloc; "{text}") {
                let text = Text::from_vec(text.into_bytes());
                list.put_event(rt, Event { channel, text });
            }
        }
    }

    /// Takes what waits for the thread with this number, in the order in which it came.
    pub(crate) fn take<R: Wait>(&self, rt: &R, thread: u16) -> Vec<News<J>>
        ensures few { length result.items ≤ WAITING_MAX + EVENTS_MAX }
        ensures other { length self.now.lists.items ≤ thread → result.items ≡ [] }
    {
        let none = Waiting::new(self.alloc);
        let Some(list) = self.lists.get(thread as usize) else {
            return none.into_news();
        };
        mem::replace(&mut *list.waiting.lock(rt), none).into_news()
    }
}
