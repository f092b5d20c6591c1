// Fields of the answers on attributes and file systems.
ghost use Rattle.p9_wire.specs.Reading.{Always};
ghost use Rattle.p9_wire.specs.Numbers.{law32, law64};
ghost use Rattle.p9_wire.specs.Values.{qid_law, then_law};

use crate::message::{Rgetattr, Rstatfs, Rxattrwalk};
use p9_wire::error::WireError;
use p9_wire::fields::Fields;
use p9_wire::format::WireFormat;
use p9_wire::qid::Qid;
use port_base::sink::{Sink, SinkFault};
use port_base::source::Source;
use std::alloc::Global;

type StatfsFields = ((u32, (u32, (u64, (u64, u64)))), (u64, (u64, (u64, u32))));

impl WireFormat for Rstatfs {
    ghost Plain = { ⟦<StatfsFields as WireFormat>⟧.Plain };

    ghost view = { λ m. ⟦<StatfsFields as WireFormat>⟧.view (
      (m.ty, (m.bsize, (m.blocks, (m.bfree, m.bavail)))),
      (m.files, (m.ffree, (m.fsid, m.namelen))),
    ) };

    ghost Spells = { ⟦<StatfsFields as WireFormat>⟧.Spells };

    ghost spelling = { ⟦<StatfsFields as WireFormat>⟧.spelling };

    ghost IsSound = { Always };

    ghost IsReadable = { Always };

    ghost reading = { ⟦<StatfsFields as WireFormat>⟧.reading };

    ghost lawful = { then_law (then_law law32 (then_law law32
        (then_law law64 (then_law law64 law64))))
        (then_law law64 (then_law law64 (then_law law64 law32))) };

    fn fits(&self) -> bool {
        (
            (
                &self.ty,
                (&self.bsize, (&self.blocks, (&self.bfree, &self.bavail))),
            ),
            (&self.files, (&self.ffree, (&self.fsid, &self.namelen))),
        )
            .fits()
    }

    fn byte_size(&self) -> u32 {
        (
            (
                &self.ty,
                (&self.bsize, (&self.blocks, (&self.bfree, &self.bavail))),
            ),
            (&self.files, (&self.ffree, (&self.fsid, &self.namelen))),
        )
            .byte_size()
    }

    fn send<K: Sink>(&self, sink: &mut K) -> Result<(), SinkFault> {
        (
            (
                &self.ty,
                (&self.bsize, (&self.blocks, (&self.bfree, &self.bavail))),
            ),
            (&self.files, (&self.ffree, (&self.fsid, &self.namelen))),
        )
            .send(sink)
    }

    fn decode<S: Source>(alloc: Global, source: &mut S) -> Result<Self, WireError> {
        let ((ty, (bsize, (blocks, (bfree, bavail)))), (files, (ffree, (fsid, namelen)))) =
            StatfsFields::decode(alloc, source)?;
        Ok(Rstatfs {
            ty,
            bsize,
            blocks,
            bfree,
            bavail,
            files,
            ffree,
            fsid,
            namelen,
        })
    }
}

type GetAttrFields = (
    (u64, (Qid, (u32, (u32, (u32, u64))))),
    (
        (u64, (u64, (u64, u64))),
        (
            (u64, (u64, (u64, u64))),
            ((u64, (u64, (u64, u64))), (u64, u64)),
        ),
    ),
);

impl WireFormat for Rgetattr {
    ghost Plain = { ⟦<GetAttrFields as WireFormat>⟧.Plain };

    ghost view = { λ m. ⟦<GetAttrFields as WireFormat>⟧.view (
      (m.valid, (m.qid, (m.mode, (m.uid, (m.gid, m.nlink))))),
      (
        (m.rdev, (m.size, (m.blksize, m.blocks))),
        (
          (m.atime_sec, (m.atime_nsec, (m.mtime_sec, m.mtime_nsec))),
          (
            (m.ctime_sec, (m.ctime_nsec, (m.btime_sec, m.btime_nsec))),
            (m.generation, m.data_version),
          ),
        ),
      ),
    ) };

    ghost Spells = { ⟦<GetAttrFields as WireFormat>⟧.Spells };

    ghost spelling = { ⟦<GetAttrFields as WireFormat>⟧.spelling };

    ghost IsSound = { Always };

    ghost IsReadable = { Always };

    ghost reading = { ⟦<GetAttrFields as WireFormat>⟧.reading };

    ghost lawful = { then_law (then_law law64 (then_law qid_law
        (then_law law32 (then_law law32 (then_law law32 law64)))))
        (then_law (then_law law64 (then_law law64 (then_law law64 law64)))
        (then_law (then_law law64 (then_law law64 (then_law law64 law64)))
        (then_law (then_law law64 (then_law law64 (then_law law64 law64)))
        (then_law law64 law64)))) };

    fn fits(&self) -> bool {
        (
            (
                &self.valid,
                (
                    &self.qid,
                    (&self.mode, (&self.uid, (&self.gid, &self.nlink))),
                ),
            ),
            (
                (&self.rdev, (&self.size, (&self.blksize, &self.blocks))),
                (
                    (
                        &self.atime_sec,
                        (&self.atime_nsec, (&self.mtime_sec, &self.mtime_nsec)),
                    ),
                    (
                        (
                            &self.ctime_sec,
                            (&self.ctime_nsec, (&self.btime_sec, &self.btime_nsec)),
                        ),
                        (&self.generation, &self.data_version),
                    ),
                ),
            ),
        )
            .fits()
    }

    fn byte_size(&self) -> u32 {
        (
            (
                &self.valid,
                (
                    &self.qid,
                    (&self.mode, (&self.uid, (&self.gid, &self.nlink))),
                ),
            ),
            (
                (&self.rdev, (&self.size, (&self.blksize, &self.blocks))),
                (
                    (
                        &self.atime_sec,
                        (&self.atime_nsec, (&self.mtime_sec, &self.mtime_nsec)),
                    ),
                    (
                        (
                            &self.ctime_sec,
                            (&self.ctime_nsec, (&self.btime_sec, &self.btime_nsec)),
                        ),
                        (&self.generation, &self.data_version),
                    ),
                ),
            ),
        )
            .byte_size()
    }

    fn send<K: Sink>(&self, sink: &mut K) -> Result<(), SinkFault> {
        (
            (
                &self.valid,
                (
                    &self.qid,
                    (&self.mode, (&self.uid, (&self.gid, &self.nlink))),
                ),
            ),
            (
                (&self.rdev, (&self.size, (&self.blksize, &self.blocks))),
                (
                    (
                        &self.atime_sec,
                        (&self.atime_nsec, (&self.mtime_sec, &self.mtime_nsec)),
                    ),
                    (
                        (
                            &self.ctime_sec,
                            (&self.ctime_nsec, (&self.btime_sec, &self.btime_nsec)),
                        ),
                        (&self.generation, &self.data_version),
                    ),
                ),
            ),
        )
            .send(sink)
    }

    fn decode<S: Source>(alloc: Global, source: &mut S) -> Result<Self, WireError> {
        let (
            (valid, (qid, (mode, (uid, (gid, nlink))))),
            (
                (rdev, (size, (blksize, blocks))),
                (
                    (atime_sec, (atime_nsec, (mtime_sec, mtime_nsec))),
                    (
                        (ctime_sec, (ctime_nsec, (btime_sec, btime_nsec))),
                        (generation, data_version),
                    ),
                ),
            ),
        ) = GetAttrFields::decode(alloc, source)?;
        Ok(Rgetattr {
            valid,
            qid,
            mode,
            uid,
            gid,
            nlink,
            rdev,
            size,
            blksize,
            blocks,
            atime_sec,
            atime_nsec,
            mtime_sec,
            mtime_nsec,
            ctime_sec,
            ctime_nsec,
            btime_sec,
            btime_nsec,
            generation,
            data_version,
        })
    }
}

impl WireFormat for Rxattrwalk {
    ghost Plain = { ⟦<u64 as WireFormat>⟧.Plain };

    ghost view = { λ m. ⟦<u64 as WireFormat>⟧.view m.size };

    ghost Spells = { ⟦<u64 as WireFormat>⟧.Spells };

    ghost spelling = { ⟦<u64 as WireFormat>⟧.spelling };

    ghost IsSound = { Always };

    ghost IsReadable = { Always };

    ghost reading = { ⟦<u64 as WireFormat>⟧.reading };

    ghost lawful = { law64 };

    fn fits(&self) -> bool {
        self.size.fits()
    }

    fn byte_size(&self) -> u32 {
        self.size.byte_size()
    }

    fn send<K: Sink>(&self, sink: &mut K) -> Result<(), SinkFault> {
        self.size.send(sink)
    }

    fn decode<S: Source>(alloc: Global, source: &mut S) -> Result<Self, WireError> {
        let size = u64::decode(alloc, source)?;
        Ok(Rxattrwalk { size })
    }
}
