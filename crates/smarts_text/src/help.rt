/// What `--help` prints: every command, key, status and fault number.
pub const HELP: &str = "\
turbosmarts: cycles per instruction of RV32IM programs, by sampling

usage: turbosmarts COMMAND [KEY=VALUE]... < INPUT > OUTPUT
       turbosmarts demo size=N [KEY=VALUE]... > OUTPUT
       turbosmarts --help | --version

The input of `sample`, `warm` and `run` is an image, an ELF executable for RV32IM; that of
`estimate` and `migrate` is a library that `warm` wrote. Keys come in any order, each once.

sample   measures units of the run until their mean is known well enough; writes a report
    unit=N           instructions in a unit, 16 to 10000 (default 1000)
    warm=N           instructions before a unit that belong to its window, 0 to 100000 (2000)
    every=N          every N-th unit may be measured, 1 to 1000000 (100)
    offset=N         the number of the first of them, 0 to 999999, below every (0)
    seed=N           of the order in which units are visited, 0 to 1000000000000000000 (1)
    budget=N         the most instructions of the run, 1 to 68719476736 (1000000000)
    min=N            the fewest units measured, 2 to 65536 (30)
    z=N              standard deviations to each side of the mean, in thousandths, 1 to 4000 (3000)
    error=N          the largest half width, in ten-thousandths of the mean, 1 to 5000 (300)
  the processor that is timed:
    machine=ruu      with a register update unit, or scalar: one instruction after the other (ruu)
    l1i=L:S:W        first cache of instructions: bytes of a line, 16 to 256, and sets, 1 to 4096,
                     both powers of two, and ways, 1 to 16 (64:64:4)
    l1d=L:S:W        first cache of data (64:64:4)
    l2=L:S:W         second cache, of both (64:512:8)
    itlb=S:W         TLB of instructions, with pages of 4096 bytes: sets and ways (8:4)
    dtlb=S:W         TLB of data (16:4)
    predictor=K:B:T:D   K bimodal or gshare, 2^B counters, 4 to 14, 2^T targets, 2 to 10, and D
                     return addresses, 0 to 16 (gshare:12:9:8)
    fetch=N dispatch=N issue=N retire=N   instructions in a cycle, each 1 to 8 (4)
    queue=N          places of the fetch queue, 1 to 32 (8)
    ruu=N            places of the register update unit, 4 to 256 (32)
    lsq=N            places of the load and store queue, 2 to 128, at most ruu (16)
    penalty=N        cycles after a misprediction, 1 to 64 (6)
    alus=N muls=N divs=N loads=N stores=N branches=N
                     instructions of each class issued in a cycle, each 1 to 8 (4 1 1 2 1 1)
    mullat=N         cycles of a multiplication, 1 to 16 (3)
    divlat=N         cycles of a division, 1 to 64 (20)
    l1lat=N          cycles of a load, 1 to 16 (2)
    fwdlat=N         cycles of a load whose word a store under way holds, 1 to 16 (1)
    l2lat=N          more where only the second cache hits, 1 to 100 (10)
    memlat=N         more where no cache hits, 1 to 1000 (100)
    tlblat=N         more where the TLB misses, 0 to 200 (30)

demo     samples a program that is made from a number, and reads nothing
    size=N           turns of the program's loop, of 258 instructions each, 1 to 1000000 (required);
                     the program is drawn from the seed. All keys of sample

warm     writes the library of the run: of each unit that may be measured, in the order of visits,
         what is needed to time it without the program (a live-point)
    unit warm every offset seed budget l1i l1d l2 itlb dtlb   as for sample. A library serves every
                     processor whose structures have these lines, and no more sets or ways
    predictor=K:B:T:D[,K:B:T:D]...   one to four different predictors (gshare:12:9:8)

estimate  measures units of a run as its library has them until their mean is known well enough;
         writes a report, the one of `sample` with the library's keys
    min z error   as for sample
    workers=N        how many work at once, 1 to 64 (1). The report is the same for every number
  and all keys of the processor, as for sample. A cache, TLB or predictor that isn't given is the
                     library's, of several predictors the first

migrate  writes the library again, in the newest form: words that several points share stand once.
         It has no keys

run      runs the program to its end; writes what it wrote
    budget=N         the most instructions of the run, 1 to 68719476736 (1000000000)

The process ends with one of these statuses, and tells it on standard error:
  0  done
  1  words: fault N at P: word P (from 0) is refused
       1 no command   2 unknown command   3 unknown key   4 key repeated   5 not of the key's form
       6 out of range   7 demo has no size   8 lsq is over ruu   9 offset is not below every
  2  image: fault N
       1 no ELF file   2 not for 32-bit RISC-V   3 no executable, or it needs an interpreter
       4 built for compressed instructions   5 program headers outside the file
       6 segment outside the file   7 segment out of range   8 segments overlap
       9 more than 67108864 bytes   10 bad entry   11 the segments span more than 67108864 bytes
  3  trapped at N: kind K, pc A: instruction N (from 0) at address A was refused
       1 illegal   2 bad target   3 misaligned load   4 misaligned store   5 nothing is mapped there
       6 break   7 bad buffer of a write
  4  budget spent after N: the program had not ended
  5  library: fault N at P
       1 no library   2 of another version   3 the field at byte P is out of range
       4 the bytes end at P, in the middle of a field   5 a record of point P breaks a rule
       6 words of point P out of order   7 point P is not of the unit that is visited there
       8 more bytes from P on   9 more than 1073741824 bytes
       10 point P is of no run: it has a fault when it is run
       11 shared pair P out of order   12 a run of shared words of point P is out of order
  6  design: fault N value V
       1 a run of V instructions has no whole unit   2 there are V units, more than 65536
       3 the library would have V bytes, more than 1073741824
       4 the library does not serve the processor: 0 l1i, 1 l1d, 2 l2, 3 itlb, 4 dtlb, 5 predictor
  7  read fault
  8  write fault after N: bytes that were written
  9  no memory
";
