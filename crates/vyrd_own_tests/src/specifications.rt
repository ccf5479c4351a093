//! Specifications of a user's own.

/// Balances, a word each, and transfers between them.
pub const ACCOUNTS: &str = "vyrd 3 own 1024 64
# Accounts whose balances stand in a word each, and transfers between them. The sum never changes but by deposits.
part 1
  shows part w0
method deposit a n
  allow (reply == 1)
    set [a] ([a] + n)
method transfer a b n
  answer (if ([a] < n) then 0 else none)
  allow ((([a] >= n) and (a != b)) and (reply == 1))
    set [a] ([a] - n)
    set [b] ([b] + n)
  allow ((([a] >= n) and (a == b)) and (reply == 1))
method balance a
  answer [a]
log
";

/// A counter in one word, with compare-and-set.
pub const COUNTER: &str = "vyrd 3 own 1 64
# A counter in one word, with compare-and-set.
part 1
  shows 0 w0
method add n
  allow (reply == [0])
    set [0] ([0] + n)
method compare_and_set old new
  answer (if ([0] == old) then none else 0)
  allow (([0] == old) and (reply == 1))
    set [0] new
method read
  answer [0]
log
";

/// A queue with two ends.
pub const DEQUE: &str = "vyrd 3 own 0 64
list items
method push_first x
  allow (reply == 1)
    prepend items x
method push_last x
  allow (reply == 1)
    append items x
method pop_first
  answer (if ((length items) == 0) then 0 else none)
  allow (((length items) > 0) and (reply == ((first items) + 1)))
    drop first items
method pop_last
  answer (if ((length items) == 0) then 0 else none)
  allow (((length items) > 0) and (reply == ((last items) + 1)))
    drop last items
log
";

/// A map of four keys at most, which forgets what was used longest ago.
pub const LEAST_RECENTLY_USED: &str = "vyrd 3 own 0 64
# A map of at most 4 keys that forgets the one that was used longest ago. Each key's last use is a number from a clock that only
# counts; {k} is the time at which k was used, and [time] is the key that was used then, plus 1.
let room 4
register clock 1
method put k v
  allow ((reply == 1) and ({k} > 0))
    set [{k}] 0
    set [clock] (k + 1)
    set {k} clock
    set {(k + 4294967296)} (v + 1)
    set clock (clock + 1)
  allow (((reply == 1) and ({k} == 0)) and (count < room))
    set [clock] (k + 1)
    set {k} clock
    set {(k + 4294967296)} (v + 1)
    set clock (clock + 1)
  allow (((reply == 1) and ({k} == 0)) and (count == room))
    set {([(least 0)] - 1)} 0
    set {(([(least 0)] - 1) + 4294967296)} 0
    set [(least 0)] 0
    set [clock] (k + 1)
    set {k} clock
    set {(k + 4294967296)} (v + 1)
    set clock (clock + 1)
method get k
  answer (if ({k} == 0) then 0 else none)
  allow (({k} > 0) and (reply == {(k + 4294967296)}))
    set [{k}] 0
    set [clock] (k + 1)
    set {k} clock
    set clock (clock + 1)
log
";

/// A map with the methods of a concurrent hash map.
pub const MAP: &str = "vyrd 3 own 2048 64
# A map with the methods of a concurrent hash map. 0 says that there is no value: a value v is replied as v + 1. Entry i has its
# key plus 1 in word 2i (0: empty) and its value in word 2i + 1.
part 2
  shows (w0 - 1) (if (w0 == 0) then 0 else (w1 + 1))
method get k
  answer [k]
method contains k
  answer ([k] > 0)
method put k v
  allow (reply == [k])
    set [k] (v + 1)
method put_if_absent k v
  answer (if ([k] > 0) then [k] else none)
  allow (([k] == 0) and (reply == 0))
    set [k] (v + 1)
method replace k v
  answer (if ([k] == 0) then 0 else none)
  allow (([k] > 0) and (reply == [k]))
    set [k] (v + 1)
method compare_and_set k old new
  answer (if ([k] == (old + 1)) then none else 0)
  allow (([k] == (old + 1)) and (reply == 1))
    set [k] (new + 1)
method remove k
  answer (if ([k] == 0) then 0 else none)
  allow (([k] > 0) and (reply == [k]))
    set [k] 0
method size
  answer count
method clear_all
  allow (reply == 1)
    clear
log
";

/// A multiset in slots.
pub const MULTISET: &str = "vyrd 3 own 8192 64
# The built-in multiset of size 1,024: slot i has its state in word 2i (2: it counts) and its element in word 2i + 1.
part 2
  shows w1 (if (w0 == 2) then 1 else 0)
method insert x
  allow (reply == 0)
  allow (reply == 1)
    set [x] ([x] + 1)
method insert_pair x y
  allow (reply == 0)
  allow ((reply == 1) and (x != y))
    set [x] ([x] + 1)
    set [y] ([y] + 1)
  allow ((reply == 1) and (x == y))
    set [x] ([x] + 2)
method delete x
  allow ((reply == 0) and ([x] == 0))
  allow ((reply == 1) and ([x] > 0))
    set [x] ([x] - 1)
method lookup x
  answer (if ([x] > 0) then 1 else 0)
log
";

/// A lock.
pub const MUTEX: &str = "vyrd 3 own 0 64
# A lock: who holds it, plus 1. lock and unlock name the caller.
register holder 0
method lock c
  allow ((holder == 0) and (reply == 1))
    set holder (c + 1)
method try_lock c
  answer (if (holder == 0) then none else 0)
  allow ((holder == 0) and (reply == 1))
    set holder (c + 1)
method unlock c
  allow ((holder == (c + 1)) and (reply == 1))
    set holder 0
log
";

/// A priority queue.
pub const PRIORITY_QUEUE: &str = "vyrd 3 own 0 64
# A priority queue that may hold an element more than once. pop replies the least element plus 1, or 0 where there is none.
method push x
  allow (reply == 1)
    set [x] ([x] + 1)
method pop
  let low (least 0)
  answer (if (low == none) then 0 else none)
  allow ((low != none) and (reply == (low + 1)))
    set [low] ([low] - 1)
method least_element
  answer (if ((least 0) == none) then 0 else ((least 0) + 1))
log
";

/// A queue by its replies alone.
pub const QUEUE: &str = "vyrd 3 own 0 64
# A FIFO queue by its replies alone. dequeue replies the element plus 1, or 0 if there is none.
list waiting
method enqueue x
  allow (reply == 1)
    append waiting x
method dequeue
  answer (if ((length waiting) == 0) then 0 else none)
  allow (((length waiting) > 0) and (reply == ((first waiting) + 1)))
    drop first waiting
method size
  answer (length waiting)
log
";

/// A queue whose elements stand in slots.
pub const QUEUE_IN_SLOTS: &str = "vyrd 3 own 8192 64
# A FIFO queue whose elements stand in slots, in any order: slot i has its state in word 2i (1: it counts) and its element in
# word 2i + 1. The view is the bag of the elements, the replies say their order.
part 2
  shows w1 (if (w0 == 1) then 1 else 0)
list waiting
method enqueue x
  allow (reply == 1)
    append waiting x
    set [x] ([x] + 1)
method dequeue
  let front (first waiting)
  answer (if ((length waiting) == 0) then 0 else none)
  allow (((length waiting) > 0) and (reply == (front + 1)))
    drop first waiting
    set [front] ([front] - 1)
log
";

/// A lock for readers and writers.
pub const READ_WRITE_LOCK: &str = "vyrd 3 own 0 64
register readers 0
register writer 0
method lock_shared
  allow ((writer == 0) and (reply == 1))
    set readers (readers + 1)
method unlock_shared
  allow ((readers > 0) and (reply == 1))
    set readers (readers - 1)
method lock_exclusive
  allow (((writer == 0) and (readers == 0)) and (reply == 1))
    set writer 1
method unlock_exclusive
  allow ((writer == 1) and (reply == 1))
    set writer 0
log
";

/// A bounded queue over 64 slots.
pub const RING: &str = "vyrd 3 own 128 64
# A bounded queue over 64 slots, as they stand in memory: slot i has a word that is 1 while it is filled, and a word with the
# element. The view is by position: the n-th element ever enqueued stands in slot n % 64.
let slots 64
register head 0
register tail 0
part 2
  shows part (if (w0 == 1) then (w1 + 1) else 0)
method try_enqueue x
  answer (if ((tail - head) == slots) then 0 else none)
  allow ((reply == 1) and ((tail - head) < slots))
    set [(tail % slots)] (x + 1)
    set tail (tail + 1)
method try_dequeue
  answer (if (head == tail) then 0 else none)
  allow ((head < tail) and (reply == [(head % slots)]))
    set [(head % slots)] 0
    set head (head + 1)
log
";

/// A bounded queue whose calls may fail at any time.
pub const RING_THAT_MAY_FAIL: &str = "vyrd 3 own 128 64
# A bounded queue over 64 slots, as they stand in memory, whose attempts may fail at any time: a failure commits too, anywhere.
let slots 64
register head 0
register tail 0
part 2
  shows part (if (w0 == 1) then (w1 + 1) else 0)
method try_enqueue x
  allow (reply == 0)
  allow ((reply == 1) and ((tail - head) < slots))
    set [(tail % slots)] (x + 1)
    set tail (tail + 1)
method try_dequeue
  allow (reply == 0)
  allow ((head < tail) and (reply == [(head % slots)]))
    set [(head % slots)] 0
    set head (head + 1)
log
";

/// A stack.
pub const STACK: &str = "vyrd 3 own 0 64
# A LIFO stack by its replies. pop replies the element plus 1, or 0 if there is none.
list items
method push x
  allow (reply == 1)
    append items x
method pop
  answer (if ((length items) == 0) then 0 else none)
  allow (((length items) > 0) and (reply == ((last items) + 1)))
    drop last items
method top
  answer (if ((length items) == 0) then 0 else ((last items) + 1))
log
";

/// All of them.
pub const ALL: &[&str] = &[
    ACCOUNTS,
    COUNTER,
    DEQUE,
    LEAST_RECENTLY_USED,
    MAP,
    MULTISET,
    MUTEX,
    PRIORITY_QUEUE,
    QUEUE,
    QUEUE_IN_SLOTS,
    READ_WRITE_LOCK,
    RING,
    RING_THAT_MAY_FAIL,
    STACK,
];
