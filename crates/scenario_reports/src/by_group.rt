//! How many pages a run has moved, by group.

use book::Book;
use machine::entry::Entry;
use machine::event::Event;
use machine::reply::Reply;
use machine::text::Text;
use scenario_pictures::{Moved, bump};
use std::alloc::{AllocError, Global};
use std::collections::BTreeMap;

/// A group that was made.
#[derive(Drop)]
struct Group {
    path: Text,
    /// The place of its parent. The root has none.
    parent: Option<usize>,
    is_there: bool,
    /// The pages that are charged to it and below it, as they were after the last turn.
    usage: u64,
    moved: Moved,
    /// What had been moved when the phase began.
    before: Moved,
}

/// Counts pages by group, over the entries of a history, each entry once. It has to see the book after each turn: a turn
/// adds at most one entry.
///
/// A page counts for the group that is charged with it, and for each group above that one:
///
/// - as read in with the entry `Arrived`, for the group that was charged when the entry with the reply `Fetch` began
///   the read-in, or for its parent if the group was removed in between;
/// - as written out with the entry `Left`, for the group whose charge this entry ends;
/// - as dropped with the entry whose reply is `Dropped`, for the group whose charge this entry ends.
///
/// The numbers of the root are therefore those of the machine. Those of a group end with its removal.
#[derive(Drop)]
pub struct ByGroup {
    /// By number, the root first.
    groups: Vec<Group>,
    /// How many entries were counted.
    counted: usize,
    /// By ticket, the places of the groups that are charged with pages that are being read in.
    arriving: BTreeMap<u32, usize>,
}

/// The path of the parent of a group.
fn parent_path(path: &str) -> &str {
    match path.rsplit_once('/') {
        None | Some(("", _)) => "/",
        Some((parent, _)) => parent,
    }
}

impl Group {
    fn new(path: Text, parent: Option<usize>) -> Group {
        Group {
            path,
            parent,
            is_there: true,
            usage: 0,
            moved: Moved::default(),
            before: Moved::default(),
        }
    }

    /// Reads what it is charged with now. The result says whether that has changed.
    fn refresh(&mut self, book: &Book) -> bool {
        if !self.is_there {
            return false;
        }
        let before = self.usage;
        self.usage = match book.look(self.path.as_str()) {
            None => 0,
            Some(look) => look.usage,
        };
        self.usage != before
    }
}

impl ByGroup {
    /// Nothing was moved yet.
    pub fn new(alloc: Global) -> Result<ByGroup, AllocError> {
        let root = Text::new(String::from_str(alloc, "/")?);
        Ok(ByGroup {
            groups: vec![in alloc; Group::new(root, None)]?,
            counted: 0,
            arriving: BTreeMap::new(alloc),
        })
    }

    /// The place of the group that has this path now.
    fn place_of(&self, path: &str) -> Option<usize> {
        self.groups
            .iter()
            .position(|group| group.is_there && group.path.as_str() == path)
    }

    fn make(&mut self, path: Text) -> Result<(), AllocError> {
        let parent = self.place_of(parent_path(path.as_str()));
        self.groups.push(Group::new(path, parent))?;
        Ok(())
    }

    fn remove(&mut self, number: u32) {
        if let Some(group) = self.groups.get_mut(number as usize) {
            group.is_there = false;
        }
    }

    /// The places of the groups whose charges have changed, those above a group before it. An entry only adds charges
    /// or only ends some, so the root's change if any do.
    fn changed(&mut self, alloc: Global, book: &Book) -> Result<Vec<usize>, AllocError> {
        let mut changed = Vec::new(alloc);
        for (place, group) in self.groups.iter_mut().enumerate() {
            if group.refresh(book) {
                changed.push(place)?;
            } else if place == 0 {
                break;
            }
        }
        Ok(changed)
    }

    /// Counts a page that was read in for the group at this place and those above it.
    fn count_read(&mut self, place: usize) {
        let mut next = Some(place);
        for _ in 0..self.groups.len() {
            let Some(place) = next else {
                break;
            };
            let Some(group) = self.groups.get_mut(place) else {
                break;
            };
            bump(&mut group.moved.read);
            next = group.parent;
        }
    }

    /// Counts a page that was written out for the groups at these places.
    fn count_written(&mut self, places: &[usize]) {
        for place in places {
            if let Some(group) = self.groups.get_mut(*place) {
                bump(&mut group.moved.written);
            }
        }
    }

    /// Counts a page that was dropped for the groups at these places.
    fn count_dropped(&mut self, places: &[usize]) {
        for place in places {
            if let Some(group) = self.groups.get_mut(*place) {
                bump(&mut group.moved.dropped);
            }
        }
    }

    /// Counts an entry by its reply.
    fn count_reply(&mut self, reply: Reply, changed: &[usize]) -> Result<(), AllocError> {
        match reply {
            Reply::Fetch(ticket) => {
                if let Some(place) = changed.last() {
                    self.arriving
                        .insert(ticket.0, *place)
                        .map_err(|_| AllocError)?;
                }
            }
            Reply::Dropped => self.count_dropped(changed),
            _ => {}
        }
        Ok(())
    }

    /// Counts an entry. It has changed the charges of the groups at these places.
    fn count(&mut self, alloc: Global, entry: &Entry, changed: &[usize]) -> Result<(), AllocError> {
        let is_done = entry.reply == Reply::Ok;
        match &entry.event {
            Event::Mkdir(path) => {
                if is_done {
                    self.make(path.copy(alloc)?)?;
                }
            }
            Event::Rmdir(group) => {
                if is_done {
                    self.remove(group.0);
                }
            }
            Event::Arrived { ticket, bytes: _ } => {
                if let Some(place) = self.arriving.remove(&ticket.0) {
                    self.count_read(place);
                }
            }
            Event::Left(_) => self.count_written(changed),
            _ => self.count_reply(entry.reply, changed)?,
        }
        Ok(())
    }

    /// Counts the entries since the last turn.
    pub fn read(&mut self, alloc: Global, book: &Book) -> Result<(), AllocError> {
        let entries = book.trace().entries();
        let fresh = entries.get(self.counted..).unwrap_or(&[]);
        if fresh.is_empty() {
            return Ok(());
        }
        self.counted = entries.len();
        let changed = self.changed(alloc, book)?;
        for entry in fresh {
            self.count(alloc, entry, changed.as_slice())?;
        }
        Ok(())
    }

    /// A phase begins.
    pub fn mark(&mut self) {
        for group in self.groups.iter_mut() {
            group.before = group.moved;
        }
    }

    /// What the group with this number has moved in the phase.
    pub fn moved_of(&self, number: u32) -> Moved {
        match self.groups.get(number as usize) {
            None => Moved::default(),
            Some(group) => group.moved.since(group.before),
        }
    }
}
