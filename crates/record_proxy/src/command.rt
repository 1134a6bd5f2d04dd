// The program `mm-record`: its words, the clients that it serves, the store that it writes and the line that it prints.
ghost use Rattle.std.specs.Prelude.{◌≡◌, [], Ok, IfOk, IfErr, OnOk, map, string_bytes};
ghost use Rattle.mm_base.specs.Port.{KeepsPort};
ghost use Rattle.mm_base.specs.Sink.{CountsSinkFaults};
ghost use Rattle.command_ends.specs.Alone.{IsLeftAlone};
ghost use Rattle.command_ends.specs.Answers.{CountsDisk, IsEnding, cause_in};
ghost use Rattle.command_ends.specs.Ends.{Ends, outside};
ghost use Rattle.command_ends.specs.Outputs.{holding_all};
ghost use Rattle.command_ends.specs.Stops.{StopsWriting};
ghost use Rattle.command_ends.specs.TopCalls.{RefusesByWords, TopCall};
ghost use Rattle.record_proxy.specs.Proxying.{AsksAt, ServesJob, StopsProxy, cause_of, net_counts, proxy_reading};
ghost use Rattle.record_proxy.specs.Proxying.{IsProxyStatus, proxy_files, proxy_words, proxy_work};
ghost use Rattle.record_proxy.specs.Servings.{net};
ghost use Rattle.record_proxy.specs.inside.Values.{proxy_values};

use crate::dialer::Dialer;
use crate::ends::ProxyError;
use crate::job::ProxyJob;
use crate::pool::serve_until_ended;
use crate::serving::serve;
use crate::words::read_proxy;
use command_ends::{Cause, Ending, Host, conclude};
use mm_base::{Disk, Port, Sink};
use record_store::Store;
use replay_server::Served;
use std::alloc::Global;
use std::marker::{Send, Sync};
use std::sync::Wait;
use std::thread::Threads;
use store_files::{print_served, write_store};

// Why a serving stopped.
fn cause_of(error: ProxyError) -> Cause
    ensures { result ≡ cause_of error }
{
    match error {
        ProxyError::Port => Cause::NetFault,
        ProxyError::OutOfMemory => Cause::OutOfMemory,
    }
}

// Serves the clients of a job, and adds the records of what they say to the store.
fn serve_job<P: Port + Send, X: Dialer + Send, R: Threads + Wait + Sync>(
    host: &Host<'_, R>,
    job: &ProxyJob<'_>,
    port: &mut P,
    dialer: &mut X,
    store: &mut Store,
) -> Result<Served, Cause>
    requires { store.old ≡ [] }
    ensures served { IfOk result (λ n. ServesJob P.Conn.view X.Conn.view (proxy_values job.now)
        (net (P.view port.old) (X.view dialer.old)) (net (P.view port.new) (X.view dialer.new)) store.new (Ok n)) }
    ensures asks { IfOk result (λ n. AsksAt (proxy_values job.now) (net (P.view port.old) (X.view dialer.old))
        (net (P.view port.new) (X.view dialer.new)) (Ok n)) }
    ensures stopped { IfErr result (λ cause. StopsProxy P.Conn.view X.Conn.view (proxy_values job.now)
        (net (P.view port.old) (X.view dialer.old)) (net (P.view port.new) (X.view dialer.new)) cause) }
    ensures keeps { KeepsPort (P.view port.old) (P.view port.new) }
{
    let served = if job.until_ended {
        serve_until_ended(host.threads, host.alloc, job, port, dialer, store)
    } else {
        serve(host.threads, host.alloc, job, port, dialer, store)
    };
    match served {
        Ok(served) => Ok(served),
        Err(error) => Err(cause_of(error)),
    }
}

// Writes the file of a store that was recorded. Where nothing was recorded until ended the disk isn't asked.
fn write_recorded<D: Disk>(
    alloc: Global,
    job: &ProxyJob<'_>,
    disk: &mut D,
    store: &Store,
) -> Result<(), Cause>
    ensures ok { OnOk result ((D.view disk.new).files
        ≡ holding_all (proxy_files (proxy_values job.now) store.now) (D.view disk.old).files) }
    ensures stopped { IfErr result (λ cause. StopsWriting (proxy_files (proxy_values job.now) store.now)
        (D.view disk.old) (D.view disk.new) cause) }
    ensures unwritten { proxy_files (proxy_values job.now) store.now ≡ []
        → (D.view disk.new).write_faults ≡ (D.view disk.old).write_faults }
    ensures counts { CountsDisk (D.view disk.old) (D.view disk.new) }
{
    if job.until_ended && store.records().is_empty() {
        return Ok(());
    }
    write_store(alloc, disk, job.out, store)
}

// Does the job: its clients are served, the records are written, and then it is printed how they ended.
fn record<D: Disk, O: Sink, P: Port + Send, X: Dialer + Send, R: Threads + Wait + Sync>(
    host: &Host<'_, R>,
    job: &ProxyJob<'_>,
    disk: &mut D,
    out: &mut O,
    port: &mut P,
    dialer: &mut X,
) -> Result<(), Cause>
    ensures ends { Ends (proxy_work P.Conn.view X.Conn.view) (proxy_reading (proxy_values job.now))
        (outside (D.view disk.old) (O.view out.old) (net (P.view port.old) (X.view dialer.old)))
        (outside (D.view disk.new) (O.view out.new) (net (P.view port.new) (X.view dialer.new))) (cause_in result) }
    ensures keeps { KeepsPort (P.view port.old) (P.view port.new) }
    ensures counts { CountsDisk (D.view disk.old) (D.view disk.new) }
    ensures out_counts { CountsSinkFaults (O.view out.old) (O.view out.new) }
{
    let mut store = Store::new(host.alloc);
    let served = serve_job(host, job, port, dialer, &mut store)?;
    write_recorded(host.alloc, job, disk, &store)?;
    print_served(host.alloc, served, out)
}

// Does what the words say.
fn answer<D: Disk, O: Sink, P: Port + Send, X: Dialer + Send, R: Threads + Wait + Sync>(
    host: &Host<'_, R>,
    words: &[String],
    disk: &mut D,
    out: &mut O,
    port: &mut P,
    dialer: &mut X,
) -> Result<(), Cause>
    ensures ends { Ends (proxy_work P.Conn.view X.Conn.view) (proxy_words (map string_bytes words.now))
        (outside (D.view disk.old) (O.view out.old) (net (P.view port.old) (X.view dialer.old)))
        (outside (D.view disk.new) (O.view out.new) (net (P.view port.new) (X.view dialer.new))) (cause_in result) }
    ensures alone { IsLeftAlone (proxy_words (map string_bytes words.now)) (D.view disk.old) (D.view disk.new) }
    ensures keeps { KeepsPort (P.view port.old) (P.view port.new) }
    ensures counts { CountsDisk (D.view disk.old) (D.view disk.new) }
    ensures out_counts { CountsSinkFaults (O.view out.old) (O.view out.new) }
{
    match read_proxy(host.alloc, words)? {
        Ok(job) => record(host, &job, disk, out, port, dialer),
        Err(fault) => Err(Cause::usage(fault)),
    }
}

/// Does what the words after the program's name say, and returns the exit status.
///
/// `--port N --to N --connections N --out FILE [--until-ended]` listens at a port of 1 to 65,535, accepts 0 to 64
/// clients one after the other, dials the site's port for each, passes what the two say unchanged, and finishes both.
/// Then it writes the store of all exchanges, recorded from the site's port, in the order of acceptance, and prints how
/// the connections ended, as `closed C bad B broken K full F`. A connection for which the dialer fails is counted as
/// broken.
///
/// With `--until-ended` up to N clients, then 1 to 64, are served at a time, without a limit in all but 4,294,967,295,
/// until the port has no more, and the store has the records connection after connection in the order in which these
/// ended. Where there is no record, as nobody came or nothing was dialed, no store is written then, and the file stays
/// as it was.
///
/// 0: it is done. 2: the words have no job. 7: writing the store failed; or printing on `out`, and then the store is
/// whole. 8: the port can't be listened at, or a client can't be accepted or finished. 9: memory was wanting. At 2
/// and at 8 no file is changed. A status other than 0 is explained by one line on `out`, but for a fault of `out`
/// itself.
pub fn proxy_main<D: Disk, O: Sink, P: Port + Send, X: Dialer + Send, R: Threads + Wait + Sync>(
    rt: &R,
    alloc: Global,
    words: &[String],
    disk: &mut D,
    out: &mut O,
    port: &mut P,
    dialer: &mut X,
) -> u8
    ensures top { TopCall net_counts (proxy_work P.Conn.view X.Conn.view) (proxy_words (map string_bytes words.now))
        (outside (D.view disk.old) (O.view out.old) (net (P.view port.old) (X.view dialer.old)))
        (outside (D.view disk.new) (O.view out.new) (net (P.view port.new) (X.view dialer.new))) result }

    // 2 comes by the words alone, and no other status comes but 0, 7, 8 and 9.
    ensures usage { RefusesByWords (proxy_words (map string_bytes words.now)) result }
    ensures statuses { IsProxyStatus result }
{
    proxy_ending(rt, alloc, words, disk, out, port, dialer).status
}

/// Does what `proxy_main` does, and returns the answer of the command line beside its exit status, so that it can be
/// said to a person why the command line isn't done.
pub fn proxy_ending<D: Disk, O: Sink, P: Port + Send, X: Dialer + Send, R: Threads + Wait + Sync>(
    rt: &R,
    alloc: Global,
    words: &[String],
    disk: &mut D,
    out: &mut O,
    port: &mut P,
    dialer: &mut X,
) -> Ending
    ensures ending { IsEnding (proxy_work P.Conn.view X.Conn.view) (proxy_words (map string_bytes words.now))
        (outside (D.view disk.old) (O.view out.old) (net (P.view port.old) (X.view dialer.old)))
        (outside (D.view disk.new) (O.view out.new) (net (P.view port.new) (X.view dialer.new))) result }

    // What `proxy_main` leaves.
    ensures top { TopCall net_counts (proxy_work P.Conn.view X.Conn.view) (proxy_words (map string_bytes words.now))
        (outside (D.view disk.old) (O.view out.old) (net (P.view port.old) (X.view dialer.old)))
        (outside (D.view disk.new) (O.view out.new) (net (P.view port.new) (X.view dialer.new))) result.status }

    // 2 comes by the words alone, and no other status comes but 0, 7, 8 and 9.
    ensures usage { RefusesByWords (proxy_words (map string_bytes words.now)) result.status }
    ensures statuses { IsProxyStatus result.status }
{
    let host = Host { threads: rt, alloc };
    let answer = answer(&host, words, disk, out, port, dialer);
    let status = conclude(&answer, out);
    Ending { answer, status }
}
