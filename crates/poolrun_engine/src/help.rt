//! What the program says of itself.

/// Which version the program is.
pub const VERSION: &str = "poolrun 0.1.0\n";

/// How the program is used.
pub const HELP: &str = "\
poolrun plays a script of moves over a pool of objects, and writes the reply to each line.

  poolrun                        plays the script on its standard input
  poolrun check                  plays it, and compares the replies that are written in it
  poolrun draw                   plays it, and writes a picture of the run in SVG
  poolrun draw journal           writes a picture of the journal on its standard input
  poolrun watch                  plays it, and writes after each reply how the pool stands
  poolrun watch --colour         the same in colours, for a terminal
  poolrun threads N M            N threads add M times each to the objects of one pool
  poolrun threads N M journal K  the same, and writes the pool's journal of at most K steps
  poolrun buffers MOST           puts each line of its input into a buffer
  poolrun help script            says what a script looks like
  poolrun --help                 writes this
  poolrun --version              says which version this is

The status is 0 if all was done, 1 if a written reply is another, a stream fails or there is no memory, and 2 if the
arguments or a line of the input are none that it knows. Standard error says which.
";

/// What a script looks like.
pub const HELP_SCRIPT: &str = "\
A script has one move in a line. One blank parts two words. Empty lines, and those that begin with #, are skipped.

# One place for two gets
# The second waits until the first gives its object back.
pool 1 fifo none 0 => ok
get 0 => party 0; object 0 value 0
get 1 => party 1; pending
back 0 => kept
poll 1 2 => object 0 value 0

Behind => stands the reply, as `poolrun check` and `poolrun draw` read it; `poolrun` itself reads lines without. A
picture has the first comment as its title, and those that follow it below that.

The first line makes the pool:

  pool MAX MODE RUNTIME FIRST [IDLE]   a managed pool: MODE fifo or lifo, RUNTIME none or clock, FIRST the number of
                                       its first object, IDLE how many objects are to stay idle
  config RUNTIME FIRST JSON            a managed pool by a configuration
  unmanaged MAX RUNTIME                an unmanaged pool

Behind the words of a pool may stand `most N`: no more than N gets may wait, and of an unmanaged pool no more adds.

Over a managed pool (P is a party, which is a get that has started; N an object; NOW a moment in nanoseconds):

  start            a get starts: party P                 get NOW      starts, and is polled at once
  start W C R      with timeouts, each - or nanoseconds  poll P NOW   goes on as far as it can
  advance P NOW    goes on by one step                   cancel P     is given up
  back N           an object comes back                  take N       an object leaves the pool
  put N V          an object has another value           retain N ..  keeps these idle objects alone
  resize MAX       another limit                         close        closes the pool
  drain            closes it, and says what is left      clone, drop, upgrade   its handles
  status           how the pool stands                   tally        how often each thing has happened
  answer KIND WORD ..   how the manager and the hooks answer next: KIND create, recycle, pre, post or postcreate,
                        WORD ok, pending, refuse or add

Over an unmanaged pool (V is a value):

  get, get D       a get starts, which may wait so long  add V        an add starts
  poll P NOW       goes on                               cancel P     is given up
  tryget           an object, if one is free             tryadd V     adds an object, if there is room
  back N, take N, close, drain, status, tally, clone, drop, upgrade   as above

Numbers are decimal digits alone. 1,024 gets and adds may start.
";
