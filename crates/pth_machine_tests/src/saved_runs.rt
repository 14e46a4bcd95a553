//! Scripts whose runs are saved at each place.

/// A script, and how many places its run has at which it is saved: its start, behind each step but one that ends the run, and behind
/// each move of idle time. Of a longer run they are the first 200.
pub struct Run {
    pub script: &'static str,
    pub places: u64,
}

pub static RUNS: [Run; 52] = [
    // main exits, and waits for a thread
    Run {
        script: "pth 1\nthread 0\nspawn 1 9 0\nyield 0\nexit 0\nend\nthread 1\nexit 9\nend\n",
        places: 4,
    },
    // main joins a thread, and notes its value
    Run {
        script: "pth 1\nthread 0\na1 = spawn 1 9 0\na2 = join a1\nnote a2\nend\nthread 1\nexit a0\nend\n",
        places: 6,
    },
    // main exits at once
    Run {
        script: "pth 1\nthread 0\nexit 0\nend\n",
        places: 1,
    },
    // a thread of the least priority beside one of the greatest
    Run {
        script: "pth 1\nthread 0\na1 = attr_new\nattr_set a1 prio -5\nspawn 1 0 a1\nattr_set a1 prio 5\nspawn 1 0 a1\nlabel 1\nyield 0\ngoto 1 0 eq 0\nend\nthread 1\nlabel 1\nyield 0\ngoto 1 0 eq 0\nend\n",
        places: 200,
    },
    // a thread names another one in its yield
    Run {
        script: "pth 1\nthread 0\na1 = attr_new\nattr_set a1 prio -5\na2 = spawn 1 0 a1\nattr_set a1 prio 5\nspawn 2 a2 a1\nend\nthread 1\nyield 0\nnote 1\nend\nthread 2\nyield 0\nyield a0\nend\n",
        places: 13,
    },
    // main names a thread that naps
    Run {
        script: "pth 1\nthread 0\na1 = spawn 1 0 0\nyield 0\nyield a1\nnote 5\nend\nthread 1\nnap 10\nend\n",
        places: 10,
    },
    // new threads are favoured
    Run {
        script: "pth 1\nthread 0\nctrl favournew 1\nspawn 1 1 0\nspawn 1 2 0\nyield 0\nend\nthread 1\nnote a0\nend\n",
        places: 9,
    },
    // new threads are not favoured
    Run {
        script: "pth 1\nthread 0\nctrl favournew 0\nspawn 1 1 0\nspawn 1 2 0\nyield 0\nend\nthread 1\nnote a0\nend\n",
        places: 10,
    },
    // two reads, and the end of the input
    Run {
        script: "pth 1\nthread 0\nread 3 10\nread 3 10\nend\nkernel\nopen 3\nat 50 3 in 61626364\nat 60 3 eof\n",
        places: 7,
    },
    // a read with a ring of a moment and a descriptor
    Run {
        script: "pth 1\nthread 0\na1 = ev_time 20\na2 = ev_fd r 4\nev_concat a1 a2\nread_ev 3 10 a1\nev_status a1\nev_status a2\na3 = ev_time 0\nev_status a3\nend\nkernel\nopen 3\nopen 4\nat 50 3 in 61\n",
        places: 11,
    },
    // a thread with handlers is canceled as it waits for a ring
    Run {
        script: "pth 1\nhandler 0\nnote arg\nend\nthread 0\na1 = port_create -\na2 = spawn 1 a1 0\nyield 0\nport_put a1 7 0\ncancel a2\njoin a2\nend\nthread 1\ncleanup_push 0 1\ncleanup_push 0 2\na1 = ev_time 5000\na2 = ev_msg a0\na3 = ev_tid dead 1\nev_concat a1 a2\nev_concat a1 a3\nwait a1\nnote 99\nend\n",
        places: 17,
    },
    // a thread that waits at a condition is canceled, and takes its mutex back
    Run {
        script: "pth 1\nhandler 0\nrelease 0\nend\nthread 0\nmutex_init 0\ncond_init 0\na1 = spawn 1 0 0\nyield 0\nmutex_acquire 0 0 0\ncancel a1\nyield 0\nmutex_release 0\njoin a1\nend\nthread 1\nmutex_acquire 0 0 0\ncleanup_push 0 0\ncond_await 0 0 0\nend\n",
        places: 16,
    },
    // a thread that waits at a condition is aborted
    Run {
        script: "pth 1\nhandler 0\nrelease 0\nend\nthread 0\nmutex_init 0\ncond_init 0\na1 = spawn 1 0 0\nyield 0\nmutex_acquire 0 0 0\nabort a1\nyield 0\nmutex_release 0\njoin a1\nend\nthread 1\nmutex_acquire 0 0 0\ncleanup_push 0 0\ncond_await 0 0 0\nend\n",
        places: 13,
    },
    // a destructor sets its value again
    Run {
        script: "pth 1\nhandler 0\nsetkey 0 arg\nend\nthread 0\na1 = key_create 0\na2 = spawn 1 a1 0\njoin a2\nend\nthread 1\nkey_set a0 5\nend\n",
        places: 7,
    },
    // a thread that waits at a barrier is aborted
    Run {
        script: "pth 1\nthread 0\nbarrier_init 0 3\nbarrier_init 1 1\nbarrier_reach 1\na1 = spawn 1 0 0\nyield 0\nspawn 1 0 0\nyield 0\nabort a1\nspawn 1 0 0\nyield 0\nbarrier_reach 0\nend\nthread 1\nbarrier_reach 0\nend\n",
        places: 20,
    },
    // two threads want each other's mutex
    Run {
        script: "pth 1\nthread 0\nmutex_init 0\nmutex_init 1\nmutex_acquire 0 0 0\nspawn 1 0 0\nyield 0\nmutex_acquire 1 0 0\nend\nthread 1\nmutex_acquire 1 0 0\nmutex_acquire 0 0 0\nend\n",
        places: 9,
    },
    // workers serve the connections that main accepts
    Run {
        script: "pth 1\nthread 0\na1 = port_create jobs\nspawn 1 a1 0\nspawn 1 a1 0\nlabel 1\na2 = accept 3\nport_put a1 a2 0\nadd a3 1\ngoto 1 a3 lt 2\nend\nthread 1\na1 = ev_msg a0\nlabel 1\nwait a1\na2 = port_get a0\ngoto 1 err ne 0\na3 = read a2 100\nnap 10\nwrite a2 buf\nclose a2\nend\nkernel\nclock 1\nopen 3\nat 10 3 conn 7\nat 10 7 room 100\nat 12 7 in 6869\nat 30 3 conn 8\nat 30 8 room 1\nat 31 8 in 6f6b21\nat 60 8 room 100\n",
        places: 51,
    },
    // a port is destroyed with a message that has a port for its reply
    Run {
        script: "pth 1\nthread 0\na1 = port_create -\na2 = port_create -\nport_put a1 7 a2\nport_put a1 8 0\nport_destroy a1\nport_pending a2\nport_get a2\nport_get a2\nport_find jobs\nend\n",
        places: 10,
    },
    // two readers, and a writer beside them
    Run {
        script: "pth 1\nthread 0\nrw_init 0\nrw_acquire 0 rd 0 0\nrw_acquire 0 rd 0 0\nspawn 1 0 0\nyield 0\nrw_release 0\nrw_release 0\nend\nthread 1\nrw_acquire 0 rd 1 0\nrw_release 0\nrw_acquire 0 rw 1 0\nend\n",
        places: 12,
    },
    // descriptors that do not block, a connect, a select and a write
    Run {
        script: "pth 1\nthread 0\nfdmode 3 2\nread 3 5\nfdmode 3 1\nconnect 4\nselect 3 4 - 0\nwrite 4 hex:616263\nread 9 1\nend\nkernel\nopen 3\nopen 4\nat 0 4 up\nat 0 4 room 2\nat 9 4 room 5\n",
        places: 10,
    },
    // a once control, a suspension, and an event of a function
    Run {
        script: "pth 1\nhandler 0\nnote arg\nend\ncheck 0 v0 ge 1\nthread 0\nonce 0 0 4\nonce 0 0 5\na1 = spawn 1 0 0\nsuspend a1\nyield a1\nyield 0\nresume a1\nyield 0\nset v0 1\nend\nthread 1\na1 = ev_func 0 0 100\nwait a1\nend\n",
        places: 16,
    },
    // abort
    Run {
        script: "pth 1\nhandler 0\nnote arg\nend\nthread 0\na1 = spawn 1 0 0\nyield 0\ncancel a1\nnap 3\nabort a1\na2 = join a1\nnote err\nend\nthread 1\ncancel_state 2\ncleanup_push 0 7\nlabel 1\nnap 2\nadd a2 1\nnote a2\ngoto 1 0 eq 0\nend\n",
        places: 19,
    },
    // aging
    Run {
        script: "pth 1\nthread 0\na1 = attr_new\nattr_set a1 prio -5\nattr_set a1 name slow\na2 = spawn 1 3 a1\nattr_set a1 prio 5\nattr_set a1 name quick\na3 = spawn 1 12 a1\nattr_destroy a1\njoin a2\njoin a3\nend\nthread 1\nlabel 1\nnote a0\nyield 0\nadd a1 1\ngoto 1 a1 lt a0\nexit a1\nend\n",
        places: 76,
    },
    // barrier
    Run {
        script: "pth 1\nthread 0\nbarrier_init 0 3\nspawn 1 1 0\nspawn 1 2 0\nspawn 1 3 0\nexit 0\nend\nthread 1\nnote a0\nbarrier_reach 0\nnote a0\nbarrier_reach 0\nend\n",
        places: 25,
    },
    // bounded buffer
    Run {
        script: "pth 1\nthread 0\nmutex_init 0\ncond_init 0\ncond_init 1\nspawn 1 3 0\nspawn 2 3 0\nend\nthread 1\nlabel 1\nmutex_acquire 0 0 0\nlabel 2\ngoto 3 v0 gt 0\ncond_await 0 0 0\ngoto 2 0 eq 0\nlabel 3\nadd v0 -1\nnote v0\ncond_notify 1 0\nmutex_release 0\nadd a0 -1\ngoto 1 a0 gt 0\nend\nthread 2\nlabel 1\nmutex_acquire 0 0 0\nlabel 2\ngoto 3 v0 lt 2\ncond_await 1 0 0\ngoto 2 0 eq 0\nlabel 3\nadd v0 1\nnote v0\ncond_notify 0 0\nmutex_release 0\nadd a0 -1\ngoto 1 a0 gt 0\nend\n",
        places: 77,
    },
    // cancel safe await
    Run {
        script: "pth 1\nhandler 0\nrelease arg\nend\nthread 0\nmutex_init 0\ncond_init 0\na1 = spawn 1 0 0\na2 = spawn 1 0 0\nyield 0\nmutex_acquire 0 0 0\nadd v0 1\ncond_notify 0 0\nmutex_release 0\ncancel a1\na3 = join a1\nnote a3\na3 = join a2\nnote a3\nmutex_acquire 0 1 0\nmutex_release 0\nend\nthread 1\nmutex_acquire 0 0 0\ncleanup_push 0 0\nlabel 1\ngoto 2 v0 gt 0\ncond_await 0 0 0\ngoto 1 0 eq 0\nlabel 2\nadd v0 -1\ncleanup_pop 1\nexit 5\nend\n",
        places: 35,
    },
    // cancel safe lock
    Run {
        script: "pth 1\nhandler 0\nrelease arg\nend\nthread 0\nmutex_init 0\nmutex_init 1\nmutex_acquire 1 0 0\na1 = spawn 1 0 0\na2 = spawn 2 0 0\nyield 0\ncancel a1\na3 = join a1\nnote a3\na3 = join a2\nnote a3\nmutex_acquire 0 1 0\nmutex_release 0\nmutex_release 1\nend\nthread 1\nmutex_acquire 0 0 0\ncleanup_push 0 0\nmutex_acquire 1 0 0\ncleanup_push 0 1\ncleanup_pop 1\ncleanup_pop 1\nend\nthread 2\nmutex_acquire 0 0 0\ncleanup_push 0 0\nnap 2\ncleanup_pop 1\nexit 5\nend\n",
        places: 28,
    },
    // cancel
    Run {
        script: "pth 1\nhandler 0\nnote arg\nset v0 0\nend\nhandler 1\nnote arg\nend\nthread 0\na1 = spawn 1 0 0\nnap 4\ncancel a1\na2 = join a1\nnote a2\nnote v0\nend\nthread 1\na1 = self\nset v0 a1\ncleanup_push 0 a1\ncleanup_push 1 100\nlabel 1\nnap 2\nadd a2 1\nnote a2\ngoto 1 0 eq 0\nend\n",
        places: 22,
    },
    // chain
    Run {
        script: "pth 1\nthread 0\nspawn 1 0 0\nyield 0\nexit 0\nend\nthread 1\nspawn 2 0 0\nexit 1\nend\nthread 2\nspawn 3 0 0\nexit 2\nend\nthread 3\nexit 3\nend\n",
        places: 8,
    },
    // cleanup
    Run {
        script: "pth 1\nhandler 0\nnote arg\nset v0 0\nend\nthread 0\na1 = spawn 1 0 0\na2 = spawn 1 1 0\na1 = join a1\na2 = join a2\nnote a1\nnote a2\nend\nthread 1\na1 = self\nlabel 1\ngoto 2 v0 eq 0\nyield 0\ngoto 1 0 eq 0\nlabel 2\nset v0 a1\ncleanup_push 0 a1\nnap 2\ngoto 3 a0 eq 0\ncleanup_pop 1\nexit 0\nlabel 3\nexit -1\nend\n",
        places: 31,
    },
    // copy with timeout
    Run {
        script: "pth 1\nthread 0\na1 = ev_time 100\nlabel 1\na2 = read_ev 3 8 a1\ngoto 9 a2 le 0\na3 = write_ev 4 buf a1\ngoto 9 a3 lt 0\nadd v0 a3\ngoto 1 a3 eq a2\nlabel 9\nev_status a1\nev_free a1 all\nclose 3\nclose 4\nexit v0\nend\nkernel\nopen 3\nopen 4\nat 0 4 room 6\nat 10 3 in 636f7079\nat 40 3 in 74696d65\nat 50 4 room 2\nat 80 3 in 6f766572\nat 90 4 room 1\nat 120 4 room 50\n",
        places: 38,
    },
    // countdown
    Run {
        script: "pth 1\nhandler 0\nnote arg\nset v1 arg\nend\ncheck 0 v0 le arg\nthread 0\nset v0 3\nlabel 1\na1 = spawn 1 v0 0\nnote a1\nyield 0\nadd v0 -1\ngoto 1 v0 gt 0\na1 = spawn 7 0 0\nnote a1\nnote err\nend\nthread 1\nlabel 1\ngoto 2 a0 le 0\nnote a0\nadd a0 -1\nyield 0\ngoto 1 0 eq 0\nlabel 2\nend\n",
        places: 61,
    },
    // deadlock
    Run {
        script: "pth 1\nthread 0\nspawn 1 3 0\nspawn 1 2 0\nspawn 2 0 0\nexit 0\nend\nthread 1\njoin a0\nnote a0\nend\nthread 2\nexit 5\nend\n",
        places: 8,
    },
    // echo server
    Run {
        script: "pth 1\nthread 0\nlabel 1\na1 = accept 3\ngoto 9 a1 lt 0\nspawn 1 a1 0\nadd a2 1\ngoto 1 a2 lt 2\nlabel 9\nclose 3\nend\nthread 1\nlabel 1\na1 = read a0 100\ngoto 9 a1 le 0\na2 = write a0 buf\ngoto 9 a2 lt 0\nadd a3 a2\ngoto 1 a2 eq a1\nlabel 9\nclose a0\nexit a3\nend\nkernel\nclock 2\nopen 3\nat 10 3 conn 7\nat 10 7 room 100\nat 12 7 in 68656c6c6f\nat 30 3 conn 8\nat 31 8 in 6563686f\nat 32 8 room 3\nat 40 7 in 627965\nat 50 8 room 10\nat 60 7 eof\nat 70 8 eof\n",
        places: 55,
    },
    // join with timeout
    Run {
        script: "pth 1\nthread 0\nset a1 20\nlabel 1\na2 = spawn 1 a1 0\na3 = spawn 2 50 0\na4 = join 0\nnote a4\ngoto 2 a4 lt 0\na5 = attr_of a3\nattr_set a5 joinable 0\nattr_destroy a5\nset a1 80\ngoto 1 0 eq 0\nlabel 2\na4 = join a2\nnote a4\nend\nthread 1\nnap a0\nexit a0\nend\nthread 2\nnap a0\nexit -1\nend\n",
        places: 39,
    },
    // joined workers
    Run {
        script: "pth 1\nthread 0\na1 = spawn 1 3 0\na2 = spawn 1 1 0\na3 = spawn 1 2 0\na4 = join a1\nadd a5 a4\nctrl dead\na4 = join a2\nadd a5 a4\na4 = join a3\nadd a5 a4\njoin a1\nexit a5\nend\nthread 1\nlabel 1\ngoto 2 a0 le 0\nadd a1 a0\nadd a0 -1\nyield 0\ngoto 1 0 eq 0\nlabel 2\nexit a1\nend\n",
        places: 52,
    },
    // philosophers stalled
    Run {
        script: "pth 1\nthread 0\nmutex_init 0\nmutex_init 1\nmutex_init 2\nmutex_init 3\nmutex_init 4\nlabel 1\nspawn 1 a1 0\nadd a1 1\ngoto 1 a1 lt 5\njoin 0\nend\nthread 1\nset a1 a0\nadd a1 1\ngoto 1 a1 lt 5\nset a1 0\nlabel 1\nmutex_acquire a0 0 0\nyield 0\nmutex_acquire a1 0 0\nnote a0\nnap 2\nmutex_release a1\nmutex_release a0\nend\n",
        places: 55,
    },
    // philosophers
    Run {
        script: "pth 1\nthread 0\nmutex_init 0\nmutex_init 1\nmutex_init 2\nmutex_init 3\nmutex_init 4\nlabel 1\nspawn 1 a1 0\nadd a1 1\ngoto 1 a1 lt 5\nlabel 2\na2 = join 0\ngoto 3 err ne 0\nnote a2\ngoto 2 0 eq 0\nlabel 3\nend\nthread 1\nset a1 a0\nset a2 a0\nadd a2 1\ngoto 1 a2 lt 5\nset a1 0\nset a2 4\nlabel 1\nmutex_acquire a1 0 0\nyield 0\nmutex_acquire a2 0 0\nnap 2\nmutex_release a2\nmutex_release a1\nexit a0\nend\n",
        places: 120,
    },
    // producer consumer
    Run {
        script: "pth 1\nthread 0\na1 = spawn 1 5 0\ngoto 9 err ne 0\na2 = spawn 2 5 0\nlabel 9\nexit err\nend\nthread 1\nlabel 1\ngoto 9 v1 ge a0\nlabel 2\ngoto 3 v0 lt 2\nyield 0\ngoto 2 0 eq 0\nlabel 3\nadd v0 1\nadd v1 1\nnote v1\ngoto 1 0 eq 0\nlabel 9\nexit v1\nend\nthread 2\nlabel 1\ngoto 9 a1 ge a0\nlabel 2\ngoto 3 v0 gt 0\nyield 0\ngoto 2 0 eq 0\nlabel 3\nadd v0 -1\nadd a1 1\nnote v0\ngoto 1 0 eq 0\nlabel 9\nexit a1\nend\n",
        places: 94,
    },
    // readers
    Run {
        script: "pth 1\nthread 0\nrw_init 0\nset v0 1\nset v1 1\nspawn 1 0 0\nspawn 1 0 0\nspawn 2 2 0\nyield 0\nspawn 1 0 0\nlabel 1\njoin 0\ngoto 1 err eq 0\nnote v2\nnote v0\nend\nthread 1\nrw_acquire 0 rd 0 0\nset a1 v0\nnap 3\ngoto 1 a1 eq v1\nadd v2 1\nlabel 1\nnote v1\nrw_release 0\nend\nthread 2\nrw_acquire 0 rw 0 0\nset v0 a0\nnap 3\nset v1 a0\nrw_release 0\nrw_acquire 0 rd 0 0\nnote v1\nend\n",
        places: 60,
    },
    // rpc
    Run {
        script: "pth 1\nthread 0\na1 = port_create double\na2 = port_create -\na3 = ev_msg a2\nspawn 1 0 0\nset a4 20\nlabel 1\nport_put a1 a4 a2\nwait a3\na5 = port_get a2\nnote a5\nadd a4 1\ngoto 1 a4 lt 22\nport_destroy a1\nend\nthread 1\na1 = port_find double\na2 = ev_msg a1\nlabel 1\nwait a2\na3 = port_get a1\ngoto 2 err ne 0\nadd a3 a3\nreply a3\ngoto 1 0 eq 0\nlabel 2\nend\n",
        places: 45,
    },
    // select loop
    Run {
        script: "pth 1\nthread 0\nfdmode 5 2\nlabel 1\na1 = select 3,4 - - 50\ngoto 9 a1 le 0\nlabel 3\na2 = select 3 - - 0\ngoto 4 a2 le 0\na3 = read 3 4\ngoto 9 a3 le 0\na4 = write 5 buf\nnote a4\nlabel 4\na2 = select 4 - - 0\ngoto 1 a2 le 0\na3 = read 4 4\ngoto 9 a3 le 0\na4 = write 5 buf\nnote a4\ngoto 1 0 eq 0\nlabel 9\nselect 3,4,5 3,4,5 3,4,5 0\nexit a1\nend\nkernel\nopen 3\nopen 4\nopen 5\nat 0 5 room 6\nat 20 4 in 666f7572\nat 45 3 in 7468726565\nat 45 4 in 34\nat 60 5 exc\nat 60 5 room 1\n",
        places: 54,
    },
    // signal or timeout
    Run {
        script: "pth 1\nthread 0\ncond_init 0\nspawn 1 0 0\nnap 5\ncond_notify 0 0\nend\nthread 1\nlabel 1\na1 = ev_cond 0\na2 = timeout 20\nchain a1 ev_time a2\nwait a1\na3 = ev_walk a1 next_occurred\na4 = ev_kind a3\nnote a4\nev_free a1 all\ngoto 1 a4 eq 7\nend\n",
        places: 31,
    },
    // spawn yield exit
    Run {
        script: "pth 1\nthread 0\nspawn 1 9 0\nyield 0\nexit 0\nend\nthread 1\nexit 9\nend\n",
        places: 4,
    },
    // thread values
    Run {
        script: "pth 1\nhandler 0\nnote arg\nend\nthread 0\nv0 = key_create 0\na1 = spawn 1 3 0\na2 = spawn 1 0 0\nyield 0\nkey_get v0\njoin a1\njoin a2\nkey_delete v0\nend\nthread 1\nadd v1 100\nkey_set v0 v1\nyield 0\na1 = key_get v0\ngoto 1 a0 gt 0\nnote a1\nkey_set v0 0\nlabel 1\nexit a1\nend\n",
        places: 25,
    },
    // timed lock
    Run {
        script: "pth 1\nthread 0\nmutex_init 0\nmutex_acquire 0 0 0\na1 = spawn 1 20 0\na2 = spawn 1 90 0\nnap 50\nmutex_release 0\na1 = join a1\nnote a1\na2 = join a2\nnote a2\nend\nthread 1\na1 = timeout a0\na2 = ev_time a1\nmutex_acquire 0 0 a2\ngoto 1 err eq 4\nev_free a2 this\nnap 2\nmutex_release 0\nexit 1\nlabel 1\nev_free a2 this\nexit 0\nend\n",
        places: 33,
    },
    // timer wheel
    Run {
        script: "pth 1\nthread 0\nset a4 10\nset a5 15\nset a6 40\na1 = ev_time a4\na2 = chain a1 ev_time a5\na3 = chain a1 ev_time a6\nlabel 1\nwait a1\na7 = ev_status a1\ngoto 2 a7 eq 0\nnote 10\nadd v0 1\nadd a4 10\na8 = chain a1 ev_time a4\nev_free a1 this\nset a1 a8\nlabel 2\na7 = ev_status a2\ngoto 3 a7 eq 0\nnote 15\nadd v0 1\nadd a5 15\na8 = chain a2 ev_time a5\nev_free a2 this\nset a2 a8\nlabel 3\na7 = ev_status a3\ngoto 4 a7 eq 0\nnote 40\nadd v0 1\nadd a6 40\na8 = chain a3 ev_time a6\nev_free a3 this\nset a3 a8\nlabel 4\na7 = timeout 0\ngoto 1 a7 lt 40\nev_free a1 all\nexit v0\nend\n",
        places: 113,
    },
    // two children
    Run {
        script: "pth 1\nthread 0\nspawn 1 0 0\nspawn 2 0 0\nexit 0\nend\nthread 1\nyield 0\nyield 0\nexit 11\nend\nthread 2\nyield 0\nexit 12\nend\n",
        places: 9,
    },
    // two descriptors
    Run {
        script: "pth 1\nthread 0\na1 = ev_fd r 3\na2 = chain a1 ev_fd r 4\na3 = chain a1 ev_time 100\nlabel 1\nwait a3\na4 = ev_status a3\ngoto 3 a4 eq 1\na4 = ev_status a1\ngoto 2 a4 eq 0\nnote 3\nev_free a1 this\ngoto 1 0 eq 0\nlabel 2\nnote 4\nev_free a2 this\ngoto 1 0 eq 0\nlabel 3\nnote 100\nclose 3\nend\nkernel\nclock 2\nopen 3\nopen 4\nat 30 4 conn 5\nat 30 5 in 68656c6c6f\nat 40 3 room 100\nat 200 3 eof\n",
        places: 23,
    },
    // watch
    Run {
        script: "pth 1\ncheck 0 v0 ge arg\nthread 0\nspawn 1 3 0\nlabel 1\nnap 6\nadd v0 1\nnote v0\ngoto 1 v0 lt 4\nend\nthread 1\na1 = ev_func 0 a0 10\nwait a1\nnote v0\nend\n",
        places: 33,
    },
    // wide range
    Run {
        script: "pth 2\nrange 20\nthread 0\na1 = attr_new\nattr_set a1 prio -20\nspawn 1 -20 a1\nattr_set a1 prio 20\nspawn 1 20 a1\nattr_set a1 prio 21\nexit 0\nend\nthread 1\nnote a0\nyield 0\nexit a0\nend\n",
        places: 14,
    },
    // worker pool
    Run {
        script: "pth 1\nthread 0\na1 = port_create -\na2 = port_create -\nspawn 1 a1 0\nspawn 1 a1 0\nyield 0\nport_put a1 30 a2\nnap 5\nport_put a1 10 a2\nport_put a1 8 a2\na3 = ev_msg a2\nlabel 1\nwait a3\na4 = port_get a2\nnote a4\nadd a5 1\ngoto 1 a5 lt 3\nport_destroy a1\nend\nthread 1\na1 = self\na2 = ev_msg a0\nlabel 1\nwait a2\na3 = port_get a0\ngoto 1 err eq 2\ngoto 2 err ne 0\nnap a3\nreply a1\nadd a4 1\ngoto 1 0 eq 0\nlabel 2\nexit a4\nend\n",
        places: 89,
    },
];
