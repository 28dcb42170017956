// Two threads of a script that run at once: each is held before its first post until the other is before its own. And the
// orders in which two threads' posts may come, each of them seen.
use crate::faults::Faults;
use crate::pacing::Pacing;
use crate::running::{Call, answer_of};
use std::alloc::Global;
use std::sync::Wait;
use std::sync::atomic::AtomicU64;
use std::sync::atomic::Ordering::SeqCst;
use std::thread::Threads;

// How often a thread looks whether the other has come.
const LOOKS: u64 = 1_000_000_000;

// Returns once a post has come, or has not within so many looks, which is then counted as missed.
fn wait_for(post: &AtomicU64, missed: &AtomicU64) {
    for _ in 0..LOOKS {
        if post.load(SeqCst) > 0 {
            return;
        }
    }
    missed.fetch_add(1, SeqCst);
}

/// Where two threads meet: each has come there at its first post, and waits for the other.
#[derive(Drop)]
pub(crate) struct Meeting {
    // How often the posts of the lines 1, 2, 4 and 5 came.
    first: AtomicU64,
    second: AtomicU64,
    fourth: AtomicU64,
    fifth: AtomicU64,
    // How often a post of another line or thread came.
    others: AtomicU64,
    // How many threads have looked for the other in vain.
    missed: AtomicU64,
}

impl Meeting {
    fn new() -> Meeting {
        Meeting {
            first: AtomicU64::new(0),
            second: AtomicU64::new(0),
            fourth: AtomicU64::new(0),
            fifth: AtomicU64::new(0),
            others: AtomicU64::new(0),
            missed: AtomicU64::new(0),
        }
    }

    // Whether each of the four posts came once, no other did, and no thread looked in vain.
    fn is_kept(&self) -> bool {
        self.first.load(SeqCst) == 1
            && self.second.load(SeqCst) == 1
            && self.fourth.load(SeqCst) == 1
            && self.fifth.load(SeqCst) == 1
            && self.others.load(SeqCst) == 0
            && self.missed.load(SeqCst) == 0
    }

    /// Comes before this post, and waits for the other thread at its first one.
    pub(crate) fn before(&self, thread: u8, line: u32) {
        let (post, other) = match (thread, line) {
            (1, 1) => (&self.first, Some(&self.fourth)),
            (1, 2) => (&self.second, None),
            (2, 4) => (&self.fourth, Some(&self.first)),
            (2, 5) => (&self.fifth, None),
            _ => (&self.others, None),
        };
        post.fetch_add(1, SeqCst);
        if let Some(other) = other {
            wait_for(other, &self.missed);
        }
    }
}

const REPLIES: [&str; 4] = [
    "thread 1 line 1: accepted ",
    "thread 1 line 2: accepted ",
    "thread 2 line 4: accepted ",
    "thread 2 line 5: accepted ",
];

/// Whether two threads run at once: each would wait in vain if the other came only behind it.
pub(crate) fn run_at_once<R: Threads + Wait + Sync>(rt: &R, alloc: Global) -> anyhow::Result<bool> {
    let call = Call {
        words: "run P S J",
        plan: b"A: { Start Lookup(go); }",
        script: b"set a = 1\nset b = 1\nthread 2\nset a = 2\nset b = 2\n",
        journal: &[],
        faults: Faults::NONE,
    };
    let meeting = Meeting::new();
    let answer = answer_of(rt, alloc, call, &Pacing::Meeting(&meeting))?;
    Ok(answer.status == 0 && meeting.is_kept() && has_each_once(answer.text.as_str(), &REPLIES))
}

// Whether just one line of the text begins with each of these.
fn has_each_once(text: &str, fronts: &[&str]) -> bool {
    for front in fronts {
        if text.lines().filter(|line| line.starts_with(*front)).count() != 1 {
            return false;
        }
    }
    true
}

// The orders of the lines 2 and 3 of thread 1 and the line 5 of thread 2.
#[derive(Clone, Copy)]
enum Order {
    Last,
    Between,
    First,
}

const ORDERS: [Order; 3] = [Order::Last, Order::Between, Order::First];

// What the run says of the micro steps and replies, and of the plan, where line 5 comes last, between, or first.
const OUTCOMES: [&str; 3] = [
    "quiet 1
quiet 1
quiet 2
thread 1 line 2: accepted 1
thread 1 line 3: accepted 2
thread 2 line 5: refused plan finished
plan finished SUCCESS
",
    "quiet 1
quiet 1
quiet 0
quiet 2
thread 1 line 2: accepted 1
thread 2 line 5: accepted 2
thread 1 line 3: accepted 3
plan finished SUCCESS
",
    "quiet 1
quiet 0
quiet 1
quiet 2
thread 2 line 5: accepted 1
thread 1 line 2: accepted 2
thread 1 line 3: accepted 3
plan finished SUCCESS
",
];

// How many runs there are at most of each order, and how far a thread counts that gives way.
const RUNS: usize = 1_000;

const COUNTED: u64 = 100_000;

/// Leads the two threads towards an order: who wants to be second waits until the other is before its post, and then gives
/// way for a while.
#[derive(Drop)]
pub(crate) struct Leading {
    order: Order,
    third_comes: AtomicU64,
    fifth_comes: AtomicU64,
    counted: AtomicU64,
    // How often a thread has looked for the other in vain.
    missed: AtomicU64,
}

impl Leading {
    fn new(order: Order) -> Leading {
        Leading {
            order,
            third_comes: AtomicU64::new(0),
            fifth_comes: AtomicU64::new(0),
            counted: AtomicU64::new(0),
            missed: AtomicU64::new(0),
        }
    }

    // Returns a while after the other post has come.
    fn give_way_to(&self, post: &AtomicU64) {
        wait_for(post, &self.missed);
        for _ in 0..COUNTED {
            self.counted.fetch_add(1, SeqCst);
        }
    }

    /// Comes before this post, and waits where the order wants it.
    pub(crate) fn before(&self, thread: u8, line: u32) {
        match (self.order, thread, line) {
            (Order::Last, 1, 3) => self.third_comes.store(1, SeqCst),
            (Order::Last, 2, 5) => self.give_way_to(&self.third_comes),
            (Order::Between, 1, 3) => {
                self.third_comes.store(1, SeqCst);
                self.give_way_to(&self.fifth_comes);
            }
            (Order::Between, 2, 5) => {
                wait_for(&self.third_comes, &self.missed);
                self.fifth_comes.store(1, SeqCst);
            }
            (Order::First, 1, 2) => self.give_way_to(&self.fifth_comes),
            (Order::First, 2, 5) => self.fifth_comes.store(1, SeqCst),
            _ => {}
        }
    }
}

// The lines that say how the run went.
fn told(alloc: Global, text: &str) -> anyhow::Result<String> {
    let mut told = String::new(alloc);
    for line in text.lines() {
        if line.starts_with("quiet ") || line.starts_with("thread ") || line.starts_with("plan ") {
            told.push_str(line)?;
            told.push_str("\n")?;
        }
    }
    Ok(told)
}

// What the run of two threads comes to that are led so.
fn led<R: Threads + Wait + Sync>(
    rt: &R,
    alloc: Global,
    leading: &Leading,
) -> anyhow::Result<String> {
    let call = Call {
        words: "run P S J",
        plan: b"A: { Start Lookup(go); End Lookup(done); }",
        script: b"thread 1\nset go = true\nset done = true\nthread 2\nset done = false\n",
        journal: &[],
        faults: Faults::NONE,
    };
    let answer = answer_of(rt, alloc, call, &Pacing::Leading(leading))?;
    told(alloc, answer.text.as_str())
}

// Which of the outcomes the run comes to that is led to this order; none where it is another, which is told, or where a
// thread has looked for the other in vain.
fn outcome_of<R: Print + Threads + Wait + Sync>(
    rt: &R,
    alloc: Global,
    order: Order,
) -> anyhow::Result<Option<usize>> {
    let leading = Leading::new(order);
    let told = led(rt, alloc, &leading)?;
    let place = OUTCOMES
        .iter()
        .position(|outcome| *outcome == told.as_str());
    if place.is_none() {
        println!(rt; "{}", told.as_str())?;
    }
    Ok(place.filter(|_| leading.missed.load(SeqCst) == 0))
}

/// Whether two threads come in each of three orders: each run comes to one of the three, and of so many runs each comes.
pub(crate) fn come_in_each_order<R: Print + Threads + Wait + Sync>(
    rt: &R,
    alloc: Global,
) -> anyhow::Result<bool> {
    let mut seen = [false; 3];
    for _ in 0..RUNS {
        for order in ORDERS {
            match outcome_of(rt, alloc, order)? {
                Some(place) if place < seen.len() => seen[place] = true,
                _ => return Ok(false),
            }
        }
        if seen == [true; 3] {
            return Ok(true);
        }
    }
    Ok(false)
}
