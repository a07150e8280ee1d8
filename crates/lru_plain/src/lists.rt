ghost use Rattle.std.specs.Prelude.{◌≡◌, ℕ, ◌<◌, ◌≤◌, ◌*◌, ◌+◌, List, [], ◌∷◌, ◌++◌, length, take, drop, replicate, slice_index_or, slice_set, IfOk};
ghost use Rattle.lru_plain.specs.Shape.{sets_of};
ghost use Rattle.lru_plain.specs.Lists.{has_block, used_list, list_for, used, free_block, filled, with_places, IsListing};

use crate::geometry::Geometry;
use crate::listed::Listed;
use smarts_base::NoMemory;
use std::alloc::Global;
use std::marker::Model;

/// Sets of blocks under LRU replacement: each is a list, the most recent first. All lists stand in one row,
/// with as many places to each as there are ways. Only `new` takes memory.
#[derive(Debug, Drop)]
pub struct Lists<E: Listed> {
    geometry: Geometry,
    /// One less than the number of sets.
    mask: u32,
    row: Vec<E>,
}

impl<E: Listed> Model for Lists<E> {
    ghost use Rattle.lru_plain.specs.Lists.{Listing, lists_in, IsRow};

    ghost Value = { Listing E };

    ghost view = { λ fields. record { shape = fields.geometry; sets = lists_in E.block_in fields.geometry fields.row.items } };

    ghost invariant = { λ fields. IsRow E.block_in fields.geometry fields.mask fields.row.items };
}

/// Puts the element in front, and moves those up to the old one of its block by one, or all where there was
/// none; the last is then gone. Tells whether there was one.
#[inline(never)]
fn move_to_front<E: Listed>(list: &mut [E], element: E) -> bool
    ensures hit { result ≡ has_block E.block_in (E.block_in element) list.old }
    ensures list { list.new ≡ used_list E.block_in (length list.old) element list.old }
{
    let mut carried = element;
    for place in list.iter_mut() {
        let here = *place;
        *place = carried;
        if here.block() == element.block() {
            return true;
        }
        carried = here;
    }
    false
}

/// As `move_to_front`, at once where the block is in front, as most are.
#[inline]
fn use_in<E: Listed>(list: &mut [E], element: E) -> bool
    requires { 0 < length list.old }
    ensures hit { result ≡ has_block E.block_in (E.block_in element) list.old }
    ensures list { list.new ≡ used_list E.block_in (length list.old) element list.old }
{
    if list[0].block() == element.block() {
        list[0] = element;
        true
    } else {
        move_to_front(list, element)
    }
}

/// How many places there are before the first free one.
fn filled_len<E: Listed>(list: &[E]) -> usize
    ensures filled { take result list.now ≡ filled E.block_in list.now }
    ensures within { result ≤ length list.now }
{
    let mut len = 0;
    for element in list {
        if element.block() == u32::MAX {
            return len;
        }
        len += 1;
    }
    len
}

/// Puts an element into the first free place.
fn append_to<E: Listed>(list: &mut [E], element: E)
    requires { length (filled E.block_in list.old) < length list.old }
    ensures { list.new ≡ slice_set list.old (length (filled E.block_in list.old)) element }
{
    let len = filled_len(list);
    list[len] = element;
}

/// `use_in` of so many places of a row.
#[inline]
fn use_at<E: Listed>(row: &mut [E], start: usize, ways: usize, element: E) -> bool
    requires some { 0 < ways }
    requires within { start + ways ≤ length row.old }
    ensures hit { result ≡ has_block E.block_in (E.block_in element) (take ways (drop start row.old)) }
    ensures row { row.new ≡ with_places start ways row.old
        (used_list E.block_in ways element (take ways (drop start row.old))) }
{
    use_in(&mut row[start..start + ways], element)
}

/// `append_to` of so many places of a row.
fn append_at<E: Listed>(row: &mut [E], start: usize, ways: usize, element: E)
    requires within { start + ways ≤ length row.old }
    requires room { length (filled E.block_in (take ways (drop start row.old))) < ways }
    ensures { let places : List E = take ways (drop start row.old) in
        row.new ≡ with_places start ways row.old
        (slice_set places (length (filled E.block_in places)) element) }
{
    append_to(&mut row[start..start + ways], element);
}

/// What fills so many places of a row.
fn filled_at<E: Listed>(row: &[E], start: usize, ways: usize) -> &[E]
    requires { start + ways ≤ length row.now }
    ensures { result.now ≡ filled E.block_in (take ways (drop start row.now)) }
{
    let places = &row[start..start + ways];
    &places[..filled_len(places)]
}

/// Frees all places.
fn free_all<E: Listed>(row: &mut [E], free: E)
    ensures { row.new ≡ replicate (length row.old) free }
{
    for place in row.iter_mut() {
        *place = free;
    }
}

impl<E: Listed> Lists<E> {
    /// Empty lists.
    pub fn new(alloc: Global, geometry: Geometry) -> Result<Lists<E>, NoMemory>
        ensures { IfOk result (λ lists.
            lists ≡ record { shape = geometry; sets = replicate (sets_of geometry) [] }) }
    {
        let sets = geometry.sets();
        let len = sets as usize * usize::from(geometry.ways());
        let free = E::free();
        let mut row = Vec::with_capacity(alloc, len)?;
        for _place in 0..len {
            row.push_reserved(free);
        }
        Ok(Lists {
            geometry,
            mask: sets - 1,
            row,
        })
    }

    pub fn geometry(&self) -> Geometry
        ensures value { result ≡ self.now.shape }
        ensures listing { IsListing self.now }
    {
        self.geometry
    }

    /// Makes this the last use of its block, and tells whether the block was there. Where it was, its old
    /// element is gone; else a list that had an element for each way loses its last.
    #[inline]
    pub fn touch(&mut self, element: E) -> bool
        requires { E.block_in element < free_block }
        ensures hit { result ≡ has_block E.block_in (E.block_in element) (list_for E.block_in self.old element) }
        ensures value { self.new ≡ used E.block_in self.old element }
    {
        let set = element.block() & self.mask;
        let start = self.geometry.start_of(set);
        let ways = usize::from(self.geometry.ways());
        use_at(&mut self.row, start, ways, element)
    }

    /// Empties all lists.
    pub fn clear(&mut self)
        ensures { self.new ≡ record { shape = self.old.shape; sets = replicate (sets_of self.old.shape) [] } }
    {
        free_all(&mut self.row, E::free());
    }

    /// Puts an element behind the others of a list.
    pub fn append(&mut self, set: u32, element: E)
        requires set { set < sets_of self.old.shape }
        requires block { E.block_in element < free_block }
        requires room { length (slice_index_or self.old.sets set []) < self.old.shape.ways }
        ensures { self.new ≡ record {
          shape = self.old.shape;
          sets = slice_set self.old.sets set (slice_index_or self.old.sets set [] ++ element ∷ []);
        } }
    {
        let start = self.geometry.start_of(set);
        let ways = usize::from(self.geometry.ways());
        append_at(&mut self.row, start, ways, element);
    }

    /// What keeps the memory.
    pub fn allocator(&self) -> Global {
        *self.row.allocator()
    }

    /// The list of a set, the most recent first.
    pub fn list(&self, set: u32) -> &[E]
        requires { set < sets_of self.now.shape }
        ensures value { result.now ≡ slice_index_or self.now.sets set [] }
        ensures listing { IsListing self.now }
    {
        let start = self.geometry.start_of(set);
        let ways = usize::from(self.geometry.ways());
        filled_at(&self.row, start, ways)
    }
}
