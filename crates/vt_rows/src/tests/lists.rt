//! Lists, lines and stacks, which do what the lines of a text say: a call, and behind `=` what it answers.
//!
//! An item is a number below 16. Items 0 and 1 have one rank, 2 and 3 the next one, and so on. `drops` tells how often each was
//! dropped, as hexadecimal digits: item 0 is the last digit.

ghost use Rattle.std.specs.Prelude.{◌==◌, nat_lt};

use std::alloc::{AllocError, AllocGlobal, Global};
use std::cell::Cell;
use std::io::Write;
use std::mem::{self, size_of};
use std::process::Abort;
use std::rc::Rc;
use std::rt::{self, HostRuntime};
use std::test::Fail;
use vt_key::{Key, Rank, Ranked, Stamp, When};
use vt_list::{Iter, Line, Lines, List, Parcel, Predicate, Stack};

/// A number that counts its own drops.
struct Item {
    number: u32,
    rank: Rank,
    drops: Rc<Cell<u64>>,
}

impl Drop for Item {
    fn drop(self) {
        let one = 1u64 << (self.number % 16 * 4);
        self.drops.set(self.drops.get().wrapping_add(one));
        let Item {
            number: _,
            rank: _,
            drops,
        } = self;
        drop(drops);
    }
}

impl Ranked for Item {
    ghost rank_of = { λ item. item.rank };

    fn rank(&self) -> Rank {
        self.rank
    }
}

/// Passes one number.
#[derive(Drop)]
struct Is(u32);

impl Predicate<Item> for Is {
    ghost passes = { λ t item. item.number == t.0 };

    fn test(&self, item: &Item) -> bool {
        item.number == self.0
    }
}

/// Passes what is below a number.
#[derive(Drop)]
struct Below(u32);

impl Predicate<Item> for Below {
    ghost passes = { λ t item. nat_lt item.number t.0 };

    fn test(&self, item: &Item) -> bool {
        item.number < self.0
    }
}

/// Passes what is above a number.
#[derive(Drop)]
struct Above(u32);

impl Predicate<Item> for Above {
    ghost passes = { λ t item. nat_lt t.0 item.number };

    fn test(&self, item: &Item) -> bool {
        item.number > self.0
    }
}

/// Two lists, a line, several lines in one value, and a stack, and how often each item was dropped.
#[derive(Drop)]
struct Shelf {
    list: List<Item>,
    more: List<Item>,
    line: Line<Item>,
    lines: Lines<Item>,
    stack: Stack<Item>,
    drops: Rc<Cell<u64>>,
}

fn parcel<T: Drop>(alloc: Global, item: T) -> Result<Parcel<T>, Fail> {
    match Parcel::new(alloc, item) {
        Ok(parcel) => Ok(parcel),
        Err(_item) => Err(Fail::from(AllocError)),
    }
}

fn tell_word(text: &mut Vec<u8>, word: &str) -> Result<(), Fail> {
    write!(text, " {word}")?;
    Ok(())
}

fn tell_number(text: &mut Vec<u8>, number: usize) -> Result<(), Fail> {
    write!(text, " {number}")?;
    Ok(())
}

fn tell_bool(text: &mut Vec<u8>, is_so: bool) -> Result<(), Fail> {
    tell_word(text, if is_so { "true" } else { "false" })
}

/// Tells the number of an item, or that there is none.
fn tell_item(text: &mut Vec<u8>, item: Option<&Item>) -> Result<(), Fail> {
    match item {
        Some(item) => tell_number(text, item.number as usize),
        None => tell_word(text, "none"),
    }
}

/// Tells what was taken out, and drops it.
fn tell_taken(text: &mut Vec<u8>, taken: Option<Parcel<Item>>) -> Result<(), Fail> {
    match taken {
        Some(parcel) => tell_item(text, Some(parcel.get())),
        None => tell_item(text, None),
    }
}

fn tell_all(text: &mut Vec<u8>, items: Iter<'_, Item>) -> Result<(), Fail> {
    for item in items {
        tell_item(text, Some(item))?;
    }
    Ok(())
}

fn tell_backwards(text: &mut Vec<u8>, list: &List<Item>) -> Result<(), Fail> {
    for item in list.iter_back() {
        tell_item(text, Some(item))?;
    }
    Ok(())
}

fn tell_lines(text: &mut Vec<u8>, lines: &Lines<Item>) -> Result<(), Fail> {
    for items in lines.iter() {
        tell_word(text, ":")?;
        tell_all(text, items)?;
    }
    Ok(())
}

/// The word at this index of a line, or an empty one.
fn word_at<'t>(words: &[&'t str], at: usize) -> &'t str {
    words.get(at).copied().unwrap_or("")
}

/// The number at the end of a line's words, or 0.
fn number_of(words: &[&str]) -> u32 {
    word_at(words, 2).parse::<u32>().unwrap_or(0)
}

impl Shelf {
    fn new(alloc: Global) -> Result<Shelf, Fail> {
        Ok(Shelf {
            list: List::new(alloc),
            more: List::new(alloc),
            line: Line::new(alloc),
            lines: Lines::new(alloc),
            stack: Stack::new(alloc),
            drops: Rc::new(alloc, Cell::new(0u64))?,
        })
    }

    fn item(&self, alloc: Global, number: u32) -> Result<Parcel<Item>, Fail> {
        let key = Key::new(When::tick(u64::from(number / 2)), 0, 0);
        let stamp = Stamp {
            worker: 0,
            serial: 0,
        };
        let item = Item {
            number,
            rank: Rank { key, stamp },
            drops: self.drops.clone()?,
        };
        parcel(alloc, item)
    }

    /// Puts an item in, and whether there is such a call.
    fn put(&mut self, call: &str, item: Parcel<Item>) -> bool {
        match call {
            "list.push_front" => self.list.push_front(item),
            "list.push_back" => self.list.push_back(item),
            "list.insert" => self.list.insert_ordered(item),
            "more.push_back" => self.more.push_back(item),
            "line.push_front" => self.line.push_front(item),
            "line.insert" => self.insert_in_line(item),
            "stack.push" => self.stack.push(item),
            _ => return false,
        }
        true
    }

    /// Puts an item in front of the first one of greater rank.
    fn insert_in_line(&mut self, item: Parcel<Item>) {
        let last_of_rank = item.get().number | 1;
        let passed = self.line.pass(&Above(last_of_rank));
        self.line.push_front(item);
        self.line.join(passed);
    }

    /// Takes an item out.
    fn take(&mut self, call: &str, number: u32) -> Option<Parcel<Item>> {
        match call {
            "list.pop_front" => self.list.pop_front(),
            "list.pop_back" => self.list.pop_back(),
            "list.remove" => self.list.remove(number as usize),
            "list.remove_first" => self.list.remove_first(&Is(number)),
            "line.pop_front" => self.line.pop_front(),
            "line.remove_first" => self.line.remove_first(&Is(number)),
            "stack.pop" => self.stack.pop(),
            _ => None,
        }
    }

    /// Looks at an item.
    fn look(&self, call: &str, number: u32) -> Option<&Item> {
        match call {
            "list.front" => self.list.front(),
            "list.back" => self.list.back(),
            "list.get" => self.list.get(number as usize),
            "list.find" => self.list.find(&Is(number)),
            "list.find_back_below" => self.list.find_back(&Below(number)),
            "line.front" => self.line.front(),
            "line.find" => self.line.find(&Is(number)),
            "lines.front" => self.lines.front(),
            "stack.top" => self.stack.top(),
            _ => None,
        }
    }

    /// Moves what comes first in one of them to another, or all of it. No item is dropped.
    fn carry(&mut self, alloc: Global, call: &str) -> bool {
        match call {
            "list.append_more" => self.list.append(&mut self.more),
            "more.append_list" => self.more.append(&mut self.list),
            "list.to_line" => if let Some(item) = self.list.pop_front() {
                self.line.push_front(item);
            },
            "line.to_stack" => if let Some(item) = self.line.pop_front() {
                self.stack.push(item);
            },
            "stack.to_list" => if let Some(item) = self.stack.pop() {
                self.list.push_back(item);
            },
            "line.to_lines" => self.line_to_lines(alloc),
            "line.into_lines" => self.line_into_lines(alloc),
            "lines.to_line" => if let Some(line) = self.lines.pop_line() {
                self.line = line;
            },
            _ => return false,
        }
        true
    }

    fn line_to_lines(&mut self, alloc: Global) {
        let line = mem::replace(&mut self.line, Line::new(alloc));
        if !line.is_empty() {
            self.lines.push_line(line);
        }
    }

    /// Puts the line in front of the first one of the lines that begins above its first item.
    fn line_into_lines(&mut self, alloc: Global) {
        let line = mem::replace(&mut self.line, Line::new(alloc));
        let Some(number) = line.front().map(|item| item.number) else {
            return;
        };
        let passed = self.lines.pass(&Above(number));
        self.lines.push_line(line);
        self.lines.join(passed);
    }

    /// Drops all that lies in one of them.
    fn forget(&mut self, alloc: Global, what: &str) -> bool {
        match what {
            "list" => self.list = List::new(alloc),
            "more" => self.more = List::new(alloc),
            "line" => self.line = Line::new(alloc),
            "lines" => self.lines = Lines::new(alloc),
            "stack" => self.stack = Stack::new(alloc),
            _ => return false,
        }
        true
    }

    fn tell_lens(&self, text: &mut Vec<u8>) -> Result<(), Fail> {
        tell_number(text, self.list.len())?;
        tell_number(text, self.more.len())?;
        tell_number(text, self.stack.len())
    }

    fn tell_empty(&self, text: &mut Vec<u8>) -> Result<(), Fail> {
        tell_bool(text, self.list.is_empty())?;
        tell_bool(text, self.line.is_empty())?;
        tell_bool(text, self.lines.is_empty())
    }

    fn tell_drops(&self, text: &mut Vec<u8>) -> Result<(), Fail> {
        let drops = self.drops.get();
        write!(text, " {drops:x}")?;
        Ok(())
    }

    fn tell(&self, text: &mut Vec<u8>, what: &str) -> Result<(), Fail> {
        match what {
            "list" => tell_all(text, self.list.iter()),
            "backwards" => tell_backwards(text, &self.list),
            "line" => tell_all(text, self.line.iter()),
            "lines" => tell_lines(text, &self.lines),
            "lens" => self.tell_lens(text),
            "empty" => self.tell_empty(text),
            _ => self.tell_drops(text),
        }
    }

    /// Changes what the words of a line say, and whether there is such a call.
    fn change(&mut self, alloc: Global, words: &[&str]) -> Result<bool, Fail> {
        let call = word_at(words, 1);
        match word_at(words, 0) {
            "put" => {
                let item = self.item(alloc, number_of(words))?;
                Ok(self.put(call, item))
            }
            "carry" => Ok(self.carry(alloc, call)),
            "forget" => Ok(self.forget(alloc, call)),
            _ => Ok(false),
        }
    }

    /// Tells what the words of a line answer.
    fn answer(&mut self, alloc: Global, words: &[&str], text: &mut Vec<u8>) -> Result<(), Fail> {
        let call = word_at(words, 1);
        match word_at(words, 0) {
            "take" => tell_taken(text, self.take(call, number_of(words))),
            "look" => tell_item(text, self.look(call, number_of(words))),
            "tell" => self.tell(text, call),
            _ => {
                if self.change(alloc, words)? {
                    Ok(())
                } else {
                    tell_word(text, "unknown")
                }
            }
        }
    }
}

// The line's words must be answered by the text behind `=`, or by nothing.
fn plays(rt: &(impl Abort + AllocGlobal), shelf: &mut Shelf, line: &str) -> Result<(), Fail> {
    let (call, want) = line.split_once(" =").unwrap_or((line, ""));
    let words: Vec<&str> = call.split_ascii_whitespace().collect(rt.alloc())?;
    let mut answer = Vec::new(rt.alloc());
    shelf.answer(rt.alloc(), &words, &mut answer)?;
    assert!(rt; answer.as_slice() == want.as_bytes(), "{line}");
    Ok(())
}

// A new shelf plays the lines of a text.
fn scenario(rt: &(impl Abort + AllocGlobal), lines: &str) -> Result<(), Fail> {
    let mut shelf = Shelf::new(rt.alloc())?;
    for line in lines.split('\n') {
        plays(rt, &mut shelf, line)?;
    }
    Ok(())
}

/// A list gives and takes at both ends.
const BOTH_ENDS: &str = "\
put list.push_back 1
put list.push_back 2
put list.push_front 0
tell list = 0 1 2
tell backwards = 2 1 0
look list.front = 0
look list.back = 2
look list.get 1 = 1
take list.pop_back = 2
take list.pop_front = 0
tell drops = 101
take list.pop_front = 1
take list.pop_front = none
take list.pop_back = none
look list.get 0 = none
look list.front = none
look list.back = none
tell drops = 111";

/// An appended list follows in order, and is empty then.
const APPENDED: &str = "\
carry list.append_more
put list.push_back 0
put list.push_back 1
put more.push_back 2
put more.push_back 3
carry list.append_more
tell list = 0 1 2 3
tell lens = 4 0 0
carry list.append_more
tell list = 0 1 2 3
carry more.append_list
tell empty = true true true
tell lens = 0 4 0
carry list.append_more
tell list = 0 1 2 3
tell drops = 0
take list.remove 4 = none
take list.remove 2 = 2
tell lens = 3 0 0
forget more
tell drops = 100
forget list
tell drops = 1111";

/// An item of equal rank goes behind.
const EQUAL_RANK: &str = "\
put list.insert 5
put list.insert 0
put list.insert 4
put list.insert 3
tell list = 0 3 5 4
put line.insert 5
put line.insert 0
put line.insert 4
put line.insert 3
tell line = 0 3 5 4";

/// The first that passes is found and removed.
const FIRST_THAT_PASSES: &str = "\
put list.push_back 1
put list.push_back 2
put list.push_back 3
put list.push_back 2
look list.find 2 = 2
look list.find 9 = none
take list.remove_first 9 = none
take list.remove_first 2 = 2
tell list = 1 3 2
look list.find_back_below 3 = 2
look list.find_back_below 1 = none
put line.push_front 2
put line.push_front 1
put line.push_front 0
look line.find 1 = 1
look line.find 3 = none
take line.remove_first 3 = none
take line.remove_first 1 = 1
tell line = 0 2
look line.front = 0
tell drops = 110";

/// Items go from a list to a line to a stack and back.
const FROM_LIST_TO_STACK: &str = "\
put list.push_back 0
put list.push_back 1
put list.push_back 2
carry list.to_line
carry list.to_line
carry list.to_line
carry list.to_line
tell empty = true false true
tell line = 2 1 0
carry line.to_stack
carry line.to_stack
carry line.to_stack
tell lens = 0 0 3
look stack.top = 0
carry stack.to_list
carry stack.to_list
tell list = 0 1
tell drops = 0
take stack.pop = 2
look stack.top = none
take stack.pop = none
put stack.push 3
put stack.push 4
tell lens = 2 0 2
forget stack
tell drops = 11100
forget list
tell drops = 11111";

/// Lines stand one behind the other.
const LINES: &str = "\
look lines.front = none
carry lines.to_line
put line.push_front 6
carry line.to_lines
carry line.to_lines
put line.push_front 5
put line.push_front 4
put line.push_front 3
carry line.to_lines
put line.push_front 2
put line.push_front 1
carry line.to_lines
tell lines = : 1 2 : 3 4 5 : 6
look lines.front = 1
carry lines.to_line
tell line = 1 2
look lines.front = 3
take line.pop_front = 1
take line.pop_front = 2
take line.pop_front = none
tell empty = true true false
carry lines.to_line
tell drops = 110
forget lines
tell drops = 1000110
forget line
tell drops = 1111110";

/// A line goes among the lines by its first item: in front, between two others, and behind them.
const INTO_LINES: &str = "\
carry line.into_lines
put line.push_front 4
carry line.into_lines
tell lines = : 4
put line.push_front 9
put line.push_front 8
carry line.into_lines
put line.push_front 2
put line.push_front 1
carry line.into_lines
put line.push_front 6
carry line.into_lines
tell lines = : 1 2 : 4 : 6 : 8 9
tell empty = true true false
carry lines.to_line
tell line = 1 2
tell lines = : 4 : 6 : 8 9
tell drops = 0
forget lines
tell drops = 1101010000";

#[test]
fn lists_lines_and_stacks_do_what_the_texts_say(rt: HostRuntime) -> Result<(), Fail> {
    for lines in [
        BOTH_ENDS,
        APPENDED,
        EQUAL_RANK,
        FIRST_THAT_PASSES,
        FROM_LIST_TO_STACK,
        LINES,
        INTO_LINES,
    ] {
        scenario(&rt, lines)?;
    }
    Ok(())
}

// Run with its allocation refused, as `rt try --test --fail-alloc 1` does, it takes the other arm.
#[test]
fn a_refused_node_hands_its_item_back(rt: HostRuntime) {
    match Parcel::new(rt.alloc(), 7u32) {
        Ok(mut parcel) => {
            *parcel.get_mut() += 1;
            assert!(rt; parcel.into_value() == 8);
        }
        Err(item) => assert!(rt; item == 7),
    }
}

// So 64 lists that are empty cost what one does.
#[test]
fn a_line_and_lines_are_one_word_each(rt: HostRuntime) {
    assert!(rt; size_of::<Line<u64>>() == 8 && size_of::<Lines<u64>>() == 8);
}

/// A line of so many numbers, the last one in front.
fn line_of(alloc: Global, count: u32) -> Result<Line<u32>, Fail> {
    let mut line = Line::new(alloc);
    for number in 0..count {
        line.push_front(parcel(alloc, number)?);
    }
    Ok(line)
}

/// So many lines of ten numbers.
fn lines_of(alloc: Global, count: u32) -> Result<Lines<u32>, Fail> {
    let mut lines = Lines::new(alloc);
    for _ in 0..count {
        let line = line_of(alloc, 10)?;
        if !line.is_empty() {
            lines.push_line(line);
        }
    }
    Ok(lines)
}

/// A list of so many numbers.
fn list_of(alloc: Global, count: u32) -> Result<List<u32>, Fail> {
    let mut list = List::new(alloc);
    for number in 0..count {
        list.push_back(parcel(alloc, number)?);
    }
    Ok(list)
}

/// A stack of so many numbers.
fn stack_of(alloc: Global, count: u32) -> Result<Stack<u32>, Fail> {
    let mut stack = Stack::new(alloc);
    for number in 0..count {
        stack.push(parcel(alloc, number)?);
    }
    Ok(stack)
}

// A drop by recursion would take many times the stack that a thread has.
#[test]
fn a_million_nodes_are_dropped_on_a_small_stack(rt: HostRuntime) -> Result<(), Fail> {
    let list = list_of(rt.alloc(), 1_000_000)?;
    let stack = stack_of(rt.alloc(), 1_000_000)?;
    let line = line_of(rt.alloc(), 1_000_000)?;
    let lines = lines_of(rt.alloc(), 100_000)?;
    assert!(rt; list.len() == 1_000_000 && stack.len() == 1_000_000);
    assert!(rt; line.front().copied() == Some(999_999) && lines.front().copied() == Some(9));
    Ok(())
}
